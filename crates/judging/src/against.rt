// Which of the open messages enough members complain of: the question that the entries alone answer.
ghost use Rattle.std.specs.Prelude.{◌≡◌, cond, ◌&&◌, ◌≤◌, ◌<◌, ◌+◌, leb, ltb, length};
ghost use Rattle.marks.specs.Masks.{is_marked, mark_of, set_below};
ghost use Rattle.shares.specs.Shares.{share_of};
ghost use Rattle.judging.specs.Verdicts.{enough_against, complainers_of};

// The members that complain of anything at all.
pub(crate) fn complainers(complaints: &[u64; 64]) -> u64
    ensures { result ≡ complainers_of complaints.now 64 }
{
    marks::any_of(complaints)
}

// A set of members and its share. Messages that were sent one after another mostly have the same complaint set, so the last one that was
// weighed is remembered.
#[derive(Clone, Copy)]
pub(crate) struct Weighed {
    pub members: u64,
    pub share: u64,
}

fn weigh(shares: &[u32], last: Weighed, members: u64) -> Weighed
    requires { (length shares.now ≤ 64) × (last.share ≡ share_of shares.now (is_marked last.members)) }
    ensures { (result.share ≡ share_of shares.now (is_marked result.members)) × (result.share ≡ share_of shares.now (is_marked members)) }
{
    if members == last.members {
        return last;
    }
    let share = shares::share(shares, members);
    Weighed { members, share }
}

// The set with offset o in it, where this complaint share is at least r + 1 and the count is below 255.
fn with_enough(set: u64, o: u64, against: u64, r: u32, count: u64) -> u64
    requires { o < 64 }
    ensures { result ≡ cond (leb (r + 1) against && ltb count 255) (mark_of set o) set }
{
    let enough = (u64::from(r) + 1 <= against) & (count < 255);
    set | (u64::from(enough) << o)
}

// Those of the n messages after p that enough members complain of, a bit for each; some set of members has been weighed already.
pub(crate) fn enough_among(
    shares: &[u32],
    r: u32,
    counts: &[u64; 64],
    complaints: &[u64; 64],
    weighed: Weighed,
    p: u64,
    n: u64,
) -> u64
    requires { (length shares.now ≤ 64) × (weighed.share ≡ share_of shares.now (is_marked weighed.members)) × (p ≤ 1000000000000) × (n ≤ 64) }
    ensures { result ≡ set_below n (enough_against shares.now r counts.now complaints.now p) }
{
    let mut set = 0;
    let mut last = weighed;
    for o in 0..n {
        let at = ((p + o) % 64) as usize;
        last = weigh(shares, last, complaints[at]);
        set = with_enough(set, o, last.share, r, counts[at]);
    }
    set
}
