// The circle of L units on which resends walk: the divisor, the two layouts, and resends counted from the original sender.
#![tactic(auto)]

mod euclid;
mod stretches;
mod table;
mod walk;

pub use euclid::{divisor, multiple};
pub use stretches::Place;
pub use table::{Ends, Table, fill_turn};
pub use walk::{Circle, Position, Resend, circle_of, next, resend_at, resend_from, start};
