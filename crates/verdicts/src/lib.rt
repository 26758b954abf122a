// The verdicts that a report writes: each into the part of the lent output that is not yet written.
#![tactic(auto)]

mod writing;

pub use writing::{verdicts_between, write_verdicts};
