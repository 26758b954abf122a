// What a report changes at the receiving cluster, and which verdicts are then due.
#![tactic(auto)]

mod against;
mod complaints;
mod due;
mod lost;
mod reports;
mod stepped;

pub use complaints::{Hearing, taken};
pub use due::{due_among, due_set, judged};
pub use reports::keeps_all;
