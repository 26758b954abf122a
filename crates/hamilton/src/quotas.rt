// What Hamilton's method needs of each member: its lower quota, and its place in the members' order.
ghost use Rattle.std.specs.Prelude.{◌≡◌, ◌++◌, ◌+◌, ◌-◌, ◌*◌, ◌%◌, ◌≤◌, ◌<◌, length, drop};
ghost use Rattle.basics.specs.Sums.{list_below};
ghost use Rattle.shares.specs.Shares.{total_of};
ghost use Rattle.hamilton.specs.Hamilton.{quota_of, remainder_of, undealt_of, Dealable};

// A share times the quantum: of accepted ones it is small enough for 32 bits, which are divided in less time than 64.
fn times(share: u32, q: u32) -> u32
    requires { (share ≤ 1000000) × (q ≤ 1024) }
    ensures { result ≡ share * q }
{
    share * q
}

// Member i's place in the order, as one number: it is lower for a larger remainder and, on ties, for a lower member.
fn key(product: u32, d: u32, i: usize) -> u32
    requires { (0 < d) × (d ≤ 64000000) × (i < 64) }
    ensures { result ≡ (d - product % d) * 64 + i }
{
    (d - product % d) * 64 + (i as u32)
}

// Fills the output with the lower quotas and the keys with the members' order, and says what the quotas leave of the quantum.
// All in one pass: each member's quota and remainder then come of one division.
pub(crate) fn fill_quotas(shares: &[u32], q: u32, d: u32, keys: &mut [u32], out: &mut [u32]) -> u32
    requires dealable { Dealable shares.now q }
    requires total { d ≡ total_of shares.now }
    requires room { (length shares.now ≤ length keys.old) × (length shares.now ≤ length out.old) }
    ensures value { result ≡ undealt_of shares.now q }
    ensures out_after { out.new ≡ list_below (length shares.now) (quota_of shares.now q) ++ drop (length shares.now) out.old }
    ensures keys_after { keys.new ≡ list_below (length shares.now) (λ i. (total_of shares.now - remainder_of shares.now q i) * 64 + i) ++ drop (length shares.now) keys.old }
{
    let mut rest = q;
    for (i, share) in shares.iter().enumerate() {
        let product = times(*share, q);
        let low = product / d;
        out[i] = low;
        keys[i] = key(product, d, i);
        rest -= low;
    }
    rest
}
