// The sending window: opening, sending and reports, on a state that may hold any values at all.
#![tactic(auto)]

mod formed;
mod opening;
mod refusing;
mod reporting;
mod sending;
mod state;

pub use opening::OpenAnswer;
pub use refusing::given_refusal;
pub use reporting::ReportAnswer;
pub use sending::{SendAnswer, next_refusal};
pub use state::Window;
