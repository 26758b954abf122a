// Holdings: what one receiving member holds, altered by each message that arrives.
#![tactic(auto)]

mod arrival;
mod state;

pub use arrival::{arrive, arrive_at};
pub use state::{Holdings, fresh, report, well_formed};
