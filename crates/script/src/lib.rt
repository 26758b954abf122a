// What the programs that run cases share: a line of standard input taken apart, and its answer said.
// It is no part of what an operator calls. Of what is written nothing is proved: that shows in the lines that a program writes, which are
// compared with stored ones.
#![tactic(auto)]

pub mod groups;
pub mod input;
pub mod lines;
pub mod outputs;
pub mod say;
pub mod sides;
