// Judging the open messages: which verdicts are due, and what they change.
ghost use Rattle.std.specs.Prelude.{◌≡◌, cond, ◌≤◌, ◌+◌, length, get_or};
ghost use Rattle.marks.specs.Masks.{is_marked, set_below};
ghost use Rattle.downstream.specs.State.{place_after};
ghost use Rattle.judging.specs.Verdicts.{is_due, due_of, raised_entry, judged_of, Judging};

use crate::against::{Weighed, complainers, enough_among};
use crate::lost::lost_among;
use crate::stepped::entries_after;
use downstream::{Downstream, Entry, complaints_of, counts_of, fill_held, masks_of, numbers_of};

// Those of the n messages after p that are due, a bit for each. The cheap questions come first: whether enough members complain of anything
// at all, of which messages enough do, and only then who holds these.
// inner: for the report step, which has judged the report; its state may lie in words.
pub fn due_among(
    shares: &[u32],
    u: u32,
    r: u32,
    numbers: &[u64; 64],
    masks: &[u64; 64],
    counts: &[u64; 64],
    complaints: &[u64; 64],
    p: u64,
    n: u64,
) -> u64
    requires { (length shares.now ≤ 64) × (p ≤ 1000000000000) × (n ≤ 64) }
    ensures { result ≡ set_below n (λ o. is_due shares.now u r numbers.now masks.now (p + 1 + o) (record { count = get_or counts.now (place_after p o) 0; complaints = get_or complaints.now (place_after p o) 0 })) }
{
    let any = complainers(complaints);
    let against = shares::share(shares, any);
    if against <= u64::from(r) {
        return 0;
    }
    let weighed = Weighed {
        members: any,
        share: against,
    };
    let enough = enough_among(shares, r, counts, complaints, weighed, p, n);
    if enough == 0 {
        return 0;
    }
    let mut held = [0u64; 64];
    let members = shares.len();
    fill_held(&mut held, numbers, masks, p, members);
    lost_among(shares, u, &held[..members], enough, n)
}

// The messages from p + 1 up to S that are due, a bit for each.
// inner: for the report step, which has judged the report.
pub fn due_set(d: Downstream, s: u64) -> u64
    requires { Judging d s }
    ensures { result ≡ due_of d s }
{
    let n = d.cluster.members as usize;
    due_among(
        &d.cluster.shares[..n],
        d.cluster.u,
        d.cluster.r,
        &numbers_of(d.reports),
        &masks_of(d.reports),
        &counts_of(d.entries),
        &complaints_of(d.entries),
        d.point,
        s - d.point,
    )
}

// An entry whose message is due: the count raised, the set emptied.
fn raised(due: u64, o: u64, e: Entry) -> Entry
    requires { e.count ≤ 255 }
    ensures { result ≡ cond (is_marked due o) (raised_entry e) e }
{
    if marks::is_marked(due, o) {
        return Entry {
            count: e.count + 1,
            complaints: 0,
        };
    }
    e
}

// The state after the verdicts on the messages up to S, those that are due being known.
// inner: for the report step, which has judged the report.
pub fn judged(d: Downstream, s: u64, due: u64) -> Downstream
    requires { (Judging d s) × (due ≡ due_of d s) }
    ensures { result ≡ judged_of d s }
{
    let entries = entries_after(|o, e| raised(due, o, e), d.point, s - d.point, d.entries);
    Downstream { entries, ..d }
}
