// Shares of members: of all of them, and of a set.
ghost use Rattle.std.specs.Prelude.{◌≡◌, ℕ, Bool, ◌<◌, ◌≤◌, ◌*◌, length, get_or};
ghost use Rattle.marks.specs.Masks.{is_marked};
ghost use Rattle.shares.specs.Shares.{total_of, share_of, Tells};

// The total share D.
// inner: the sum is known to fit for as many members as a cluster may have, and a cluster is judged by its length first.
#[tactic(auto, using(basics::proofs::SumLaws::sums), unfolding(crate::specs::Shares::total_of))]
pub fn total(shares: &[u32]) -> u64
    requires { length shares.now ≤ 64 }
    ensures { (result ≡ total_of shares.now) × (result < 64 * 4294967296) }
{
    let mut sum: u64 = 0;
    for share in shares {
        sum += basics::wide(*share);
    }
    sum
}

// The share of the members at whose places a test holds.
// inner: as for the total.
pub(crate) fn share_where<F: Fn(usize) -> bool>(shares: &[u32], holds: F) -> u64
    requires few { length shares.now ≤ 64 }
    requires asked { (i : ℕ) → i < length shares.now → F.pre holds i }
    ensures value { (p : ℕ → Bool) → Tells (F.post holds) (length shares.now) p → result ≡ share_of shares.now p }
    ensures fits { result < 64 * 4294967296 }
{
    let mut sum: u64 = 0;
    for (i, share) in shares.iter().enumerate() {
        sum += if holds(i) { u64::from(*share) } else { 0 };
    }
    sum
}

// The share of a set of members, a bit for each. Past the last that is named nobody is looked at.
// inner: as for the total.
pub fn share(shares: &[u32], members: u64) -> u64
    requires { length shares.now ≤ 64 }
    ensures { (result ≡ share_of shares.now (is_marked members)) × (result < 64 * 4294967296) }
{
    let past = shares.len().min(marks::reach(members) as usize);
    share_where(&shares[..past], |i| marks::is_marked(members, i as u64))
}

// The share of the members whose own word has bit b marked.
// inner: as for the total, and each member has a word.
pub fn marked_share(shares: &[u32], words: &[u64], b: u64) -> u64
    requires { (length shares.now ≤ 64) × (length shares.now ≤ length words.now) }
    ensures { (result ≡ share_of shares.now (λ i. is_marked (get_or words.now i 0) b)) × (result < 64 * 4294967296) }
{
    share_where(shares, |i| marks::is_marked(words[i], b))
}
