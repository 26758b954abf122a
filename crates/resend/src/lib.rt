// Resend pairs: who sends a message again, to whom, and how many units its run takes.
#![tactic(auto)]

mod pairs;

pub use pairs::resend_pair;
