// The calls as C and Rust see them: plain numbers, lent slices and lent arrays of fixed length.
#![tactic(auto)]

mod deals;
mod lent;
mod link_records;
mod members;
mod plans;
mod windows;
