// The window's state as 457 words of 64 bits: what a unit writes to its disk and reads back after a power cut.
#![tactic(auto)]

mod clusters;
mod entries;
mod judgement;
mod opening;
mod point;
mod reports;
mod sending;
mod straight;
mod taking;

pub use judgement::{column_at, formed};
pub use opening::{put_none, put_opened};
pub use point::reached;
pub use reports::report_in;
pub use sending::put_sent;
pub use straight::all_zero;
pub use taking::{cluster_at, quantum_in};
