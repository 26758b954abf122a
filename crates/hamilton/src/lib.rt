// Hamilton's method: how many of a quantum's messages each member is dealt.
#![tactic(auto)]

mod counting;
mod quotas;
mod ranks;

pub use counting::{counts, fill_counts};
