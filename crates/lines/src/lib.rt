// The plan's lines as text: a refusal, the header with the first copy, and the resends.
#![tactic(auto)]

mod digits;
mod lines;
mod text;

pub use lines::{put_head, put_refused, put_resends};
