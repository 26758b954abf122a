// The steps of an accepted report in the lent words of the state: what they need is read first, and only what changes is put. `window` takes
// the same steps by value, a form that document 01 names; these are for C, which lends words.
#![tactic(auto)]

mod changing;
mod columns;
mod deciding;
mod heard;
mod hearing;
mod messages;
mod putting;
mod refusing;
mod stepping;

pub use refusing::report_refusal;
pub use stepping::take_report;
