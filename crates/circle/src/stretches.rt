// Stretches of one cluster on the circle: where a unit lies, and how a place moves on.
ghost use Rattle.std.specs.Prelude.{◌≡◌, ◌+◌, ◌*◌, ◌%◌, ◌<◌, ◌≤◌, length, get_or};
ghost use Rattle.shares.specs.Shares.{total_of};
ghost use Rattle.circle.specs.Stretches.{scaled, end_of, place_of, following, moved_of};

// Where a unit lies: its owner, and the units left of the owner's stretch, the unit itself among them.
#[derive(Clone, Copy, PartialEq, Eq)]
pub struct Place {
    pub member: u32,
    pub left: u64,
}

// The length of member i's stretch.
pub(crate) fn stretch(shares: &[u32], factor: u64, i: usize) -> u64
    requires { (factor ≤ 64000000) × (i < length shares.now) }
    ensures { result ≡ factor * get_or shares.now i 0 }
{
    factor * basics::wide(shares[i])
}

// The unit where member i's stretch ends, on a circle of l units.
// inner: for the shares of an accepted cluster; for others the product may not fit.
pub fn stretch_end(shares: &[u32], factor: u64, l: u64, i: usize) -> u64
    requires { (length shares.now ≤ 64) × (i < length shares.now) × (factor ≤ 64000000) × (0 < l) }
    ensures { result ≡ end_of (scaled factor shares.now) i % l }
{
    let end = i + 1;
    let share = shares::total(&shares[..end]);
    factor * share % l
}

// Where unit x lies.
// inner: a unit past the last stretch lies in none.
pub fn locate(shares: &[u32], factor: u64, x: u64) -> Place
    requires { (length shares.now ≤ 64) × (factor ≤ 64000000) × (x < total_of (scaled factor shares.now)) }
    ensures { result ≡ place_of (scaled factor shares.now) x }
{
    let mut rest = x;
    for (i, share) in shares.iter().enumerate() {
        let width = factor * basics::wide(*share);
        if rest < width {
            return Place {
                member: i as u32,
                left: width - rest,
            };
        }
        rest -= width;
    }
    unreachable!()
}

// The member after member i of n: member 0 comes after the last.
pub(crate) fn member_after(n: usize, i: usize) -> usize
    requires { i < n }
    ensures { (result ≡ following n i) × (result < n) }
{
    if i + 1 < n { i + 1 } else { 0 }
}

// A place moved on by a run of at most what is left of its stretch: within the stretch, or from its end to the whole of the next.
// inner: as for the end of a stretch.
#[tactic(auto, using(crate::proofs::PlaceLaws::moved_within, crate::proofs::PlaceLaws::moved_past))]
pub fn moved(shares: &[u32], factor: u64, at: Place, run: u64) -> Place
    requires { (length shares.now ≤ 64) × (factor ≤ 64000000) × (at.member < length shares.now) }
    ensures { result ≡ moved_of shares.now factor at run }
{
    if at.left <= run {
        let next = member_after(shares.len(), at.member as usize);
        return Place {
            member: next as u32,
            left: stretch(shares, factor, next),
        };
    }
    Place {
        member: at.member,
        left: at.left - run,
    }
}
