// The plan program's input: how it is built, and the numbers in it.
#![tactic(auto)]

mod input;

pub use input::{Build, Numbers, build_of, fill_shares, read_numbers};
