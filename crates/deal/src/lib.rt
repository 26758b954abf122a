// Dealing first copies: what a link unit joins, the deal in rounds, and the first copy's two ends.
#![tactic(auto)]

mod dealer;
mod link;
mod pairs;
mod slots;

pub use dealer::Dealer;
pub use link::Link;
pub use pairs::{Pair, first_sender};
