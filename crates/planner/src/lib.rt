// The plan program's work: from the bytes of its input to the bytes of its text.
#![tactic(auto)]

mod planning;

pub use planning::{ROOM, plan};
