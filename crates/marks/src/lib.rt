// Marks: a 64-bit mask as a set of bits, and what a cumulative number and a mask say is held.
// No shift by 64 or more can occur: each function that shifts has its own answer for what lies past the mask.
#![tactic(auto)]

mod gathered;
mod held;
mod masks;

pub use gathered::any_of;
pub use held::{held_after, highest, holds, none_above};
pub use masks::{among, is_marked, is_subset, mark, past, reach, run, unmark};
