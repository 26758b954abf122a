// The receiving member, its holdings kept in two lent words.
ghost use Rattle.std.specs.Prelude.{◌≡◌};
ghost use Rattle.holdings.specs.State.{fresh_holdings, report_of};
ghost use Rattle.holdings.specs.Arrival.{arrival_of};
ghost use Rattle.link.specs.Holdings.{holdings_in, holdings_words, report_numbers};

use holdings::Holdings;

// The holdings of a member that has received nothing.
#[unsafe(no_mangle)]
pub extern "C" fn havdorlek_fresh(holdings: &mut [u64; 2])
    ensures { holdings.new ≡ holdings_words fresh_holdings }
{
    let h = holdings::fresh();
    *holdings = [h.number, h.mask];
}

// Message k arrives.
#[unsafe(no_mangle)]
pub extern "C" fn havdorlek_arrive(holdings: &mut [u64; 2], k: u64) -> u32
    ensures { (result ≡ (arrival_of (holdings_in holdings.old) k).refusal) × (holdings.new ≡ holdings_words (arrival_of (holdings_in holdings.old) k).holdings) }
{
    let h = Holdings {
        number: holdings[0],
        mask: holdings[1],
    };
    match holdings::arrive(h, k) {
        Ok(next) => {
            *holdings = [next.number, next.mask];
            0
        }
        Err(refusal) => refusal.number(),
    }
}

// The member's report: the number and the mask.
#[unsafe(no_mangle)]
pub extern "C" fn havdorlek_receiver_report(holdings: &[u64; 2], answer: &mut [u64; 2]) -> u32
    ensures { (result ≡ (report_of (holdings_in holdings.now)).refusal) × (answer.new ≡ report_numbers (report_of (holdings_in holdings.now))) }
{
    let h = Holdings {
        number: holdings[0],
        mask: holdings[1],
    };
    match holdings::report(h) {
        Ok(report) => {
            *answer = [report.number, report.mask];
            0
        }
        Err(refusal) => {
            *answer = [0, 0];
            refusal.number()
        }
    }
}
