// Sending.
ghost use Rattle.std.specs.Prelude.{◌≡◌, ◌≤◌};
ghost use Rattle.basics.specs.Refusals.{outcome_number};
ghost use Rattle.window.specs.Sending.{next_refusal, send_refusal, send_of, told};

use crate::state::Window;
use basics::Refusal;

// Whether the sending is accepted, and the next state: the given one where it is refused. The state inside an answer struct is a form that
// document 01 names.
#[derive(Clone, Copy)]
pub struct SendAnswer {
    pub outcome: Result<(), Refusal>,
    pub window: Window,
}

// The refusal that message k gets after S and p of a well-formed state: 6, 10, 9.
// inner: S and p of a well-formed state leave room above them.
pub fn next_refusal(sent: u64, point: u64, k: u64) -> Result<(), Refusal>
    requires { (sent ≤ 1000000000000) × (point ≤ 1000000000000) }
    ensures { outcome_number result ≡ next_refusal sent point k }
{
    if !basics::is_message(k) {
        return Err(Refusal::Message);
    }
    if k != sent + 1 {
        return Err(Refusal::NotNext);
    }
    if point + 64 < k {
        return Err(Refusal::TooFar);
    }
    Ok(())
}

fn send_refusal(w: Window, k: u64) -> Result<(), Refusal>
    ensures { outcome_number result ≡ send_refusal w k }
{
    if !w.well_formed() {
        return Err(Refusal::IllFormed);
    }
    next_refusal(w.sent, w.downstream.point, k)
}

impl Window {
    // Sends message k.
    #[tactic(auto, using(crate::proofs::SendLaws::sent_on, crate::proofs::SendLaws::sent_not))]
    pub fn send(mut self, k: u64) -> SendAnswer
        ensures { told result ≡ send_of self k }
    {
        let outcome = send_refusal(self, k);
        if outcome.is_ok() {
            self.sent = k;
        }
        SendAnswer {
            outcome,
            window: self,
        }
    }
}
