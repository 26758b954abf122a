// The arrival of one message.
ghost use Rattle.std.specs.Prelude.{◌≡◌, ◌+◌, ◌≤◌};
ghost use Rattle.basics.specs.Refusals.{outcome_number};
ghost use Rattle.holdings.specs.Arrival.{risen_of, taken_of, arrival_refusal, arrival_of, told};

use crate::state::{Holdings, well_formed};
use basics::{Refusal, is_message, wide};
use marks::{mark, past, run};

// The first check that fails, if any.
#[tactic(auto, using(basics::proofs::CheckLaws::checks), unfolding(crate::specs::Arrival::arrival_refusal))]
fn refusal_of(h: Holdings, k: u64) -> Result<(), Refusal>
    ensures { outcome_number result ≡ arrival_refusal h k }
{
    if !well_formed(h) {
        return Err(Refusal::IllFormed);
    }
    if !is_message(k) {
        return Err(Refusal::Message);
    }
    if h.number + 64 < k {
        return Err(Refusal::TooEarly);
    }
    Ok(())
}

// The number after it has risen over the marks that follow it. With all 64 marked, no shift is made.
#[tactic(auto, using(crate::proofs::ArrivalLaws::rises))]
fn risen(number: u64, mask: u64) -> Holdings
    requires { number ≤ 1000000000000 }
    ensures { result ≡ risen_of number mask }
{
    let rise = wide(run(mask));
    Holdings {
        number: number + rise,
        mask: past(mask, rise),
    }
}

// The holdings with message k taken in. The next message is asked for first, since it mostly is that one. A later one has a bit of
// its own, so near it is.
#[tactic(auto, using(crate::proofs::ArrivalLaws::taking))]
fn taken(h: Holdings, k: u64) -> Holdings
    requires { (h.number ≤ 1000000000000) × (k ≤ h.number + 64) }
    ensures { result ≡ taken_of h k }
{
    let c = h.number;
    if k == c + 1 {
        return risen(c, mark(h.mask, 0));
    }
    if k <= c {
        return h;
    }
    Holdings {
        number: c,
        mask: h.mask | (1u64 << (k - c - 1)),
    }
}

// One arrival, by value: the holdings after it.
pub fn arrive(h: Holdings, k: u64) -> Result<Holdings, Refusal>
    ensures { told h result ≡ arrival_of h k }
{
    refusal_of(h, k)?;
    Ok(taken(h, k))
}

// One arrival at holdings that their owner lends.
pub fn arrive_at(h: &mut Holdings, k: u64) -> Result<(), Refusal>
    ensures { (outcome_number result ≡ (arrival_of h.old k).refusal) × (h.new ≡ (arrival_of h.old k).holdings) }
{
    *h = arrive(*h, k)?;
    Ok(())
}
