// The columns of the reports and of the entries that the work needs, copied once and then lent.
ghost use Rattle.std.specs.Prelude.{◌≡◌, ◌≤◌};
ghost use Rattle.downstream.specs.State.{numbers_of, masks_of, counts_of, complaints_of, lacking_of};

use crate::state::{Entry, Report};

// The members' cumulative numbers.
pub fn numbers_of(reports: [Report; 64]) -> [u64; 64]
    ensures { result ≡ numbers_of reports }
{
    reports.map(|report| report.number)
}

// The members' masks.
pub fn masks_of(reports: [Report; 64]) -> [u64; 64]
    ensures { result ≡ masks_of reports }
{
    reports.map(|report| report.mask)
}

// How often each message was sent again, by its place.
pub fn counts_of(entries: [Entry; 64]) -> [u64; 64]
    ensures { result ≡ counts_of entries }
{
    entries.map(|entry| u64::from(entry.count))
}

// Who complains of each message, by its place.
pub fn complaints_of(entries: [Entry; 64]) -> [u64; 64]
    ensures { result ≡ complaints_of entries }
{
    entries.map(|entry| entry.complaints)
}

// The members that lack message k, of the first n, a bit for each.
pub(crate) fn lacking(numbers: &[u64; 64], masks: &[u64; 64], n: usize, k: u64) -> u64
    requires { n ≤ 64 }
    ensures { result ≡ lacking_of numbers.now masks.now n k }
{
    let mut set = 0;
    for i in 0..n {
        if !marks::holds(numbers[i], masks[i], k) {
            set = marks::mark(set, i as u64);
        }
    }
    set
}
