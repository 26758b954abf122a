// The holdings of a receiving member, and its report.
ghost use Rattle.std.specs.Prelude.{◌≡◌};
ghost use Rattle.holdings.specs.State.{fresh_holdings, well_formed, report_of, told};

use basics::Refusal;
use marks::{is_marked, none_above};

// Every message up to `number` is held, and bit b of `mask` speaks of message number + 1 + b.
#[derive(Clone, Copy, Default)]
pub struct Holdings {
    pub number: u64,
    pub mask: u64,
}

// The holdings of a member that has received nothing.
pub fn fresh() -> Holdings
    ensures { result ≡ fresh_holdings }
{
    Holdings { number: 0, mask: 0 }
}

// Whether bit 0 is clear and nothing is held above the highest message number. Where c lies 64 or more below it, as it nearly always
// does, no mark reaches above.
#[tactic(auto, using(crate::proofs::ArrivalLaws::formed_far), unfolding(crate::specs::State::well_formed))]
pub fn well_formed(h: Holdings) -> bool
    ensures { result ≡ well_formed h }
{
    let clear = !is_marked(h.mask, 0);
    if h.number <= 999_999_999_936 {
        return clear;
    }
    clear & none_above(h.number, h.mask, 1_000_000_000_000)
}

// The member's report: the number and the mask as they are.
#[tactic(auto, using(basics::proofs::BoolLaws::branches), unfolding(crate::specs::State::report_of))]
pub fn report(h: Holdings) -> Result<Holdings, Refusal>
    ensures { told result ≡ report_of h }
{
    if well_formed(h) {
        Ok(h)
    } else {
        Err(Refusal::IllFormed)
    }
}
