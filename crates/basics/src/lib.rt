// What every crate stands on: the refusals and the ranges that document 01 names, numbers made wider or cut short, and numbers in bytes.
// Its definitions and laws are in specs/ and proofs/.
#![tactic(auto)]

mod bytes;
mod numbers;
mod refusal;

pub use bytes::{all_zero, number, put_number};
pub use numbers::{is_message, is_quantum, is_resend, least, less, wide};
pub use refusal::{Refusal, outcome_number};
