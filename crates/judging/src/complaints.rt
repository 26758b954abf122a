// Taking a report: it is stored, the point is worked out, collected entries are emptied, and complaints are heard.
ghost use Rattle.std.specs.Prelude.{◌≡◌, ◌≤◌, ◌<◌};
ghost use Rattle.marks.specs.Held.{highest_of};
ghost use Rattle.judging.specs.Complaints.{complaints_after, complained_entry, taken_of, Taking};

use crate::stepped::entries_after;
use downstream::{Downstream, Entry, Report, numbers_of, point_from};

// What a report says, as every entry's step reads it: who reports what, the highest message that it holds, and whether the member repeats
// its number where that is the point.
#[derive(Clone, Copy)]
pub struct Hearing {
    pub member: u32,
    pub number: u64,
    pub mask: u64,
    pub highest: u64,
    pub again: bool,
}

// The complaint set of message k after the report.
fn complaints_after(h: Hearing, p: u64, k: u64, bits: u64) -> u64
    requires { (h.highest ≡ highest_of h.number h.mask) × (h.number ≤ 1000000000000) }
    ensures { result ≡ complaints_after h.member h.number h.mask h.again p k bits }
{
    if marks::holds(h.number, h.mask, k) {
        return marks::unmark(bits, u64::from(h.member));
    }
    let gap = k < h.highest;
    let repeat = h.again & (k == h.number + 1) & (h.number == p);
    if gap | repeat {
        return marks::mark(bits, u64::from(h.member));
    }
    bits
}

// The entry of message p + 1 + o after the report.
fn complained(h: Hearing, p: u64, o: u64, e: Entry) -> Entry
    requires { (h.highest ≡ highest_of h.number h.mask) × (h.number ≤ 1000000000000) × (p ≤ 1000000000000) × (o < 64) }
    ensures { result ≡ complained_entry h.member h.number h.mask h.again p o e }
{
    let bits = complaints_after(h, p, p + 1 + o, e.complaints);
    Entry {
        count: e.count,
        complaints: bits,
    }
}

// The report of member i taken: stored, the point worked out, collected entries emptied, complaints heard.
// inner: for the report step, which has judged the report.
pub fn taken(d: Downstream, s: u64, i: u32, c: u64, mask: u64) -> Downstream
    requires { Taking d s i c mask }
    ensures { result ≡ taken_of d s i c mask }
{
    let at = i as usize;
    let former = d.reports[at];
    let mut reports = d.reports;
    reports[at] = Report {
        number: c,
        mask,
        heard: true,
    };
    let p = point_from(d.cluster, numbers_of(reports));
    let h = Hearing {
        member: i,
        number: c,
        mask,
        highest: marks::highest(c, mask),
        again: former.heard & (former.number == c),
    };
    let entries = entries_after(|o, e| complained(h, p, o, e), p, s - p, d.entries);
    Downstream {
        point: p,
        reports,
        entries,
        ..d
    }
}
