// Whether all that belongs to a receiving cluster is well formed: every clause, for any values, in an order in which no sum can wrap.
ghost use Rattle.std.specs.Prelude.{◌≡◌, true, ◌≤◌, eqb};
ghost use Rattle.std.specs.List.{list_all};
ghost use Rattle.downstream.specs.State.{point_from};
ghost use Rattle.downstream.specs.Formed.{cluster_kept, span_kept, report_kept, reports_kept, complaints_kept, entry_kept, entries_kept, downstream_kept};

use crate::columns::{lacking, masks_of, numbers_of};
use crate::state::{Cluster, Downstream, Entry, Report};
use shares::LentCluster;

// Whether every one of these shares is zero.
fn all_zero(shares: &[u32]) -> bool
    ensures { result ≡ list_all (λ x. eqb x 0) shares.now }
{
    shares.iter().all(|share| *share == 0)
}

pub fn cluster_kept(c: Cluster) -> bool
    ensures { result ≡ cluster_kept c }
{
    let n = c.members as usize;
    if 64 < n {
        return false;
    }
    let (shares, past) = c.shares.split_at(n);
    let lent = LentCluster {
        shares,
        u: c.u,
        r: c.r,
    };
    let accepted = lent.refusal().is_ok();
    accepted & all_zero(past)
}

// Whether p ≤ S ≤ p + 64, and S is in range.
pub fn span_kept(p: u64, s: u64) -> bool
    ensures { result ≡ span_kept p s }
{
    if 1_000_000_000_000 < s {
        return false;
    }
    if s < p {
        return false;
    }
    s <= p + 64
}

// Whether the report in place i is one that a member of so many can have given, nothing above S being sent.
pub fn report_kept(members: u32, s: u64, i: usize, rep: Report) -> bool
    ensures { result ≡ report_kept members s i rep }
{
    if rep.heard {
        let first = marks::is_marked(rep.mask, 0);
        let none = marks::none_above(rep.number, rep.mask, s);
        (i < members as usize) & !first & none
    } else {
        (rep.number == 0) & (rep.mask == 0)
    }
}

fn reports_kept(members: u32, reports: [Report; 64], s: u64) -> bool
    ensures { result ≡ reports_kept members reports s }
{
    let mut kept = true;
    for (i, report) in reports.iter().enumerate() {
        kept &= report_kept(members, s, i, *report);
    }
    kept
}

// Whether a complaint set names only members that exist and lack message k. Past the last member that is named nobody is asked, and where
// none is named nobody at all.
pub(crate) fn complaints_kept(
    n: usize,
    numbers: &[u64; 64],
    masks: &[u64; 64],
    k: u64,
    bits: u64,
) -> bool
    requires { n ≤ 64 }
    ensures { result ≡ complaints_kept n numbers.now masks.now k bits }
{
    let past = marks::reach(bits).min(n as u64) as usize;
    marks::is_subset(bits, lacking(numbers, masks, past, k))
}

// Whether the entry of message k is kept: open up to S, and empty above it.
fn entry_kept(n: usize, numbers: &[u64; 64], masks: &[u64; 64], s: u64, k: u64, e: Entry) -> bool
    requires { n ≤ 64 }
    ensures { result ≡ entry_kept n numbers.now masks.now s k e }
{
    if k <= s {
        let named = complaints_kept(n, numbers, masks, k, e.complaints);
        (e.count <= 255) & named
    } else {
        (e.count == 0) & (e.complaints == 0)
    }
}

fn entries_kept(
    n: usize,
    numbers: &[u64; 64],
    masks: &[u64; 64],
    entries: [Entry; 64],
    p: u64,
    s: u64,
) -> bool
    requires { (n ≤ 64) × (p ≤ 1000000000000) }
    ensures { result ≡ entries_kept n numbers.now masks.now entries p s }
{
    let mut kept = true;
    for o in 0..64 {
        let at = ((p + o) % 64) as usize;
        kept &= entry_kept(n, numbers, masks, s, p + 1 + o, entries[at]);
    }
    kept
}

// The point that the members' numbers give.
// inner: for a cluster whose members have places.
pub fn point_from(c: Cluster, numbers: [u64; 64]) -> u64
    requires { c.members ≤ 64 }
    ensures { result ≡ point_from c numbers }
{
    let n = c.members as usize;
    shares::point(&c.shares[..n], &numbers, u64::from(c.u) + 1)
}

// Whether p is the point that the members' numbers give.
fn point_kept(c: Cluster, numbers: &[u64; 64], p: u64) -> bool
    requires { (c.members ≤ 64) × (p ≤ 1000000000000) }
    ensures { result ≡ eqb p (point_from c numbers.now) }
{
    let n = c.members as usize;
    shares::is_point(&c.shares[..n], numbers, u64::from(c.u) + 1, p)
}

pub fn downstream_kept(d: Downstream, s: u64) -> bool
    ensures { result ≡ downstream_kept d s }
{
    let p = d.point;
    if !span_kept(p, s) {
        return false;
    }
    let cluster = d.cluster;
    if !cluster_kept(cluster) {
        return false;
    }
    let n = cluster.members as usize;
    let numbers = numbers_of(d.reports);
    let masks = masks_of(d.reports);
    let told = reports_kept(cluster.members, d.reports, s);
    let point = point_kept(cluster, &numbers, p);
    let open = entries_kept(n, &numbers, &masks, d.entries, p, s);
    told & point & open
}
