// What is asked of a report to a well-formed state.
ghost use Rattle.std.specs.Prelude.{◌≡◌};
ghost use Rattle.basics.specs.Refusals.{outcome_number};
ghost use Rattle.window.specs.Reporting.{given_refusal};

use basics::Refusal;
use downstream::Report;

// The refusal that a report gets of a well-formed state with so many members, which has sent up to S: 5, 8, 12, 11, 13 in this
// order.
pub fn given_refusal(
    members: u64,
    s: u64,
    former: Report,
    i: u32,
    c: u64,
    mask: u64,
    room: usize,
) -> Result<(), Refusal>
    ensures { outcome_number result ≡ given_refusal members s former i c mask room }
{
    if room < 1_024 {
        return Err(Refusal::ShortOutput);
    }
    if members <= u64::from(i) {
        return Err(Refusal::NoMember);
    }
    if marks::is_marked(mask, 0) {
        return Err(Refusal::FirstBit);
    }
    if !marks::none_above(c, mask, s) {
        return Err(Refusal::NotSent);
    }
    if !judging::keeps_all(former, c, mask) {
        return Err(Refusal::HeldBefore);
    }
    Ok(())
}
