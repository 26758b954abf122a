// All that belongs to one receiving cluster: its members' reports, the collecting point, and an entry for each open message; and when
// it is well formed.
#![tactic(auto)]

mod columns;
mod formed;
mod rows;
mod sets;
mod state;

pub use columns::{complaints_of, counts_of, masks_of, numbers_of};
pub use formed::{cluster_kept, downstream_kept, point_from, report_kept, span_kept};
pub use rows::{changes, fill_held, steady_until};
pub use sets::all_complaints_kept;
pub use state::{Cluster, Downstream, Entry, Report};
