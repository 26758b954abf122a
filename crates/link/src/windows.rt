// The sending window, its state kept in lent words.
ghost use Rattle.std.specs.Prelude.{◌≡◌, [], ◌∷◌, length};
ghost use Rattle.window.specs.Opening.{open_of};
ghost use Rattle.words.specs.Put.{words_of};
ghost use Rattle.link.specs.Windows.{judge_number, send_number, send_words, report_number, report_verdicts, report_words, report_bytes};

use crate::lent::link_of;
use basics::Refusal;

// The state of a window that is opened; of zeros where the opening is refused.
#[unsafe(no_mangle)]
pub extern "C" fn havdorlek_open(
    ss: &[u32],
    su: u32,
    sr: u32,
    rs: &[u32],
    ru: u32,
    rr: u32,
    q: u32,
    window: &mut [u64; 457],
) -> u32
    ensures { (result ≡ (open_of ss.now su sr rs.now ru rr q).refusal) × (window.new ≡ words_of (open_of ss.now su sr rs.now ru rr q).window) }
{
    words::put_none(window);
    let link = link_of(ss, su, sr, rs, ru, rr, q);
    match link.refusal() {
        Ok(()) => {
            words::put_opened(link, window);
            0
        }
        Err(refusal) => refusal.number(),
    }
}

// Whether a well-formed state stands in the words: 0 or 17.
#[unsafe(no_mangle)]
pub extern "C" fn havdorlek_judge(window: &[u64; 457]) -> u32
    ensures { result ≡ judge_number window.now }
{
    if words::formed(window) {
        0
    } else {
        Refusal::IllFormed.number()
    }
}

// Sends message k.
#[unsafe(no_mangle)]
pub extern "C" fn havdorlek_send(window: &mut [u64; 457], k: u64) -> u32
    ensures { (result ≡ send_number window.old k) × (window.new ≡ send_words window.old k) }
{
    if !words::formed(window) {
        return Refusal::IllFormed.number();
    }
    match window::next_refusal(window[135], window[136], k) {
        Ok(()) => {
            words::put_sent(k, window);
            0
        }
        Err(refusal) => refusal.number(),
    }
}

// Takes a report: the verdicts into the output, how many into the answer.
#[unsafe(no_mangle)]
pub extern "C" fn havdorlek_report(
    window: &mut [u64; 457],
    member: u32,
    number: u64,
    mask: u64,
    out: &mut [u8],
    answer: &mut [u64; 1],
) -> u32
    ensures { (result ≡ report_number window.old member number mask (length out.old)) × (window.new ≡ report_words window.old member number mask (length out.old)) × (out.new ≡ report_bytes window.old member number mask out.old) × (answer.new ≡ report_verdicts window.old member number mask (length out.old) ∷ []) }
{
    if !words::formed(window) {
        *answer = [0];
        return Refusal::IllFormed.number();
    }
    match steps::report_refusal(window, member, number, mask, out.len()) {
        Ok(()) => {
            let verdicts = steps::take_report(window, member, number, mask, out);
            *answer = [u64::from(verdicts)];
            0
        }
        Err(refusal) => {
            *answer = [0];
            refusal.number()
        }
    }
}
