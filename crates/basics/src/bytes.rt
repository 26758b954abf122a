// Numbers in bytes, little-endian.
ghost use Rattle.std.specs.Prelude.{◌≡◌, ◌≤◌, length};
ghost use Rattle.basics.specs.Bytes.{le_of, le_bytes, all_zero};

// The number that the bytes of a part stand for.
// inner: a part of more than 8 bytes may stand for a number that 64 bits do not hold.
pub fn number(part: &[u8]) -> u64
    requires { length part.now ≤ 8 }
    ensures { result ≡ le_of part.now }
{
    let mut x: u64 = 0;
    for b in part.iter().rev() {
        x = x * 256 + u64::from(*b);
    }
    x
}

// Fills a part with the lowest bytes of a number, as many as the part has places.
#[tactic(auto, using(crate::proofs::ByteLaws::puts))]
pub fn put_number(out: &mut [u8], x: u64)
    ensures { out.new ≡ le_bytes (length out.old) x }
{
    let mut rest = x;
    for b in out.iter_mut() {
        *b = (rest % 256) as u8;
        rest /= 256;
    }
}

// Whether every byte is zero: the bits of all are gathered, and no byte is branched on.
#[tactic(auto, using(crate::proofs::ByteLaws::zero_turn, crate::proofs::ByteLaws::zero_done))]
pub fn all_zero(part: &[u8]) -> bool
    ensures { result ≡ all_zero part.now }
{
    let mut bits: u8 = 0;
    for b in part {
        bits |= *b;
    }
    bits == 0
}
