// Which refusal a report gets of the state that stands in words.
ghost use Rattle.std.specs.Prelude.{◌≡◌, true};
ghost use Rattle.basics.specs.Refusals.{outcome_number};
ghost use Rattle.downstream.specs.State.{report_at};
ghost use Rattle.window.specs.Formed.{well_formed};
ghost use Rattle.window.specs.Reporting.{report_refusal};
ghost use Rattle.words.specs.Taken.{reports_in, window_in};

use basics::Refusal;
use downstream::Report;

// The latest report of member i; an all-zero one where there is no such place.
pub(crate) fn former_in(words: &[u64; 457], i: u32) -> Report
    ensures { result ≡ report_at (reports_in words.now) i }
{
    let at = i as usize;
    if at < 64 {
        words::report_in(words, at)
    } else {
        Report {
            number: 0,
            mask: 0,
            heard: false,
        }
    }
}

// The refusal that a report gets of a well-formed state: 5, 8, 12, 11, 13 in this order.
// inner: for a caller that has judged the words.
pub fn report_refusal(
    words: &[u64; 457],
    i: u32,
    c: u64,
    mask: u64,
    room: usize,
) -> Result<(), Refusal>
    requires { true ≡ well_formed (window_in words.now) }
    ensures { outcome_number result ≡ report_refusal (window_in words.now) i c mask room }
{
    let former = former_in(words, i);
    window::given_refusal(words[67], words[135], former, i, c, mask, room)
}
