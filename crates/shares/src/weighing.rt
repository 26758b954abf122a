// Shares weighed in one pass: whether all are allowed, and their total. What is asked of each is gathered, and no share is branched on.
ghost use Rattle.std.specs.Prelude.{◌≡◌, ◌%◌, ◌≤◌, ltb, length, get_or};
ghost use Rattle.basics.specs.Sums.{sum_below, all_below};
ghost use Rattle.shares.specs.Shares.{total_of};
ghost use Rattle.shares.specs.Cluster.{is_share, shares_fit};

// Bit 31 tells that a share is not allowed: from 1 to 1,000,000 alone are both differences, counted round below 0, below 2^31. So bits are
// gathered of all shares, and one of them asked for at the end.
#[tactic(auto, using(crate::proofs::WeighLaws::share_told))]
fn share_bits(x: u32) -> u32
    ensures { ltb result 2147483648 ≡ is_share x }
{
    x.wrapping_sub(1) | 1_000_000u32.wrapping_sub(x)
}

// What one pass tells of the first shares, so many: bits of which the highest tells whether all are allowed, and their total where they are.
#[derive(Clone, Copy)]
pub(crate) struct Weighed {
    pub(crate) members: usize,
    pub(crate) bits: u32,
    pub(crate) total: u32,
}

// Four shares, of which none waits for another. Written out for speed: in a pass each sum would wait for the one
// before it.
#[tactic(auto, using(crate::proofs::WeighLaws::bits_four, crate::proofs::WeighLaws::total_four))]
fn weigh_four(shares: &[u32]) -> Weighed
    requires { 4 ≤ length shares.now }
    ensures { (result.members ≡ 4) × (ltb result.bits 2147483648 ≡ all_below 4 (λ i. is_share (get_or shares.now i 0))) × (result.total ≡ sum_below 4 (λ i. get_or shares.now i 0) % 4294967296) }
{
    let a = share_bits(shares[0]) | share_bits(shares[1]);
    let b = share_bits(shares[2]) | share_bits(shares[3]);
    let first = shares[0].wrapping_add(shares[1]);
    let second = shares[2].wrapping_add(shares[3]);
    Weighed {
        members: 4,
        bits: a | b,
        total: first.wrapping_add(second),
    }
}

// A loop takes eight at once, and what is left of eights one by one: of these four are taken beforehand.
#[tactic(auto, using(crate::proofs::WeighLaws::bits_of, crate::proofs::WeighLaws::total_of, crate::proofs::WeighLaws::bits_start, crate::proofs::WeighLaws::total_start))]
fn weigh_first(shares: &[u32]) -> Weighed
    ensures { (result.members ≤ length shares.now) × (ltb result.bits 2147483648 ≡ all_below result.members (λ i. is_share (get_or shares.now i 0))) × (result.total ≡ sum_below result.members (λ i. get_or shares.now i 0) % 4294967296) }
{
    if 4 <= shares.len() % 8 {
        return weigh_four(shares);
    }
    Weighed {
        members: 0,
        bits: 0,
        total: 0,
    }
}

pub(crate) fn weigh(shares: &[u32]) -> Weighed
    ensures { (ltb result.bits 2147483648 ≡ shares_fit shares.now) × (result.total ≡ total_of shares.now % 4294967296) }
{
    let first = weigh_first(shares);
    let mut bits = first.bits;
    let mut total = first.total;
    let taken = first.members;
    for share in &shares[taken..] {
        bits = bits | share_bits(*share);
        total = total.wrapping_add(*share);
    }
    Weighed {
        members: shares.len(),
        bits,
        total,
    }
}
