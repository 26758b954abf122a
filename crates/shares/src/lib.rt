// Clusters: which are accepted, the share of a set of members, and the point that members' values reach by share.
#![tactic(auto)]

mod cluster;
mod points;
mod totals;
mod weighing;

pub use cluster::{Judgement, LentCluster};
pub use points::{is_point, point};
pub use totals::{marked_share, share, total};
