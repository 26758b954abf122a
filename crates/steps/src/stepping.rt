// The steps of an accepted report.
ghost use Rattle.std.specs.Prelude.{◌≡◌, true, ◌-◌, ◌≤◌, length};
ghost use Rattle.judging.specs.Verdicts.{due_of};
ghost use Rattle.window.specs.Reporting.{Reportable};
ghost use Rattle.window.specs.Answers.{with_downstream, step_of, step_out};
ghost use Rattle.words.specs.Taken.{word_at, fits, window_in};
ghost use Rattle.words.specs.Put.{words_of};
ghost use Rattle.steps.specs.Columns.{counts_after, heard_after};
ghost use Rattle.steps.specs.Stepping.{Stepping, taken_in, step_in};

use crate::changing::raise;
use crate::columns::open_at;
use crate::deciding::{due_after, put_verdicts};
use crate::heard::heard_after;
use crate::hearing::{hearing_of, is_quiet, point_after};
use crate::putting::{put_report, put_step};
use judging::Hearing;

// The verdicts on the messages that are due: each is written, its count raised and its set emptied.
fn put_lost(
    words: &mut [u64; 457],
    h: Hearing,
    p: u64,
    due: u64,
    counts: &[u64; 64],
    sets: &[u64; 64],
    out: &mut [u8],
) -> u32
    requires { (Stepping words.old h p) × (due ≡ due_of (taken_in words.old h) (window_in words.old).sent) × (counts.now ≡ counts_after words.old p (word_at words.old 135 - p)) × (sets.now ≡ heard_after words.old h.member h.number h.mask h.again p (word_at words.old 135 - p)) × (1024 ≤ length out.old) }
    ensures { (result ≡ (step_in words.old h).verdicts) × (words.new ≡ words_of (with_downstream (window_in words.old) (step_in words.old h).downstream)) × (out.new ≡ step_out (window_in words.old).sending (window_in words.old).quantum (window_in words.old).downstream (window_in words.old).sent h.member h.number h.mask out.old) }
{
    let verdicts = put_verdicts(words, due, counts, p, out);
    let mut raised = *counts;
    let mut emptied = *sets;
    raise(&mut raised, &mut emptied, due, p);
    put_step(h, p, &raised, &emptied, words);
    verdicts
}

// The complaints are heard and the open messages judged, the point being known.
fn judge_open(words: &mut [u64; 457], h: Hearing, p: u64, out: &mut [u8]) -> u32
    requires { (Stepping words.old h p) × (1024 ≤ length out.old) }
    ensures { (result ≡ (step_in words.old h).verdicts) × (words.new ≡ words_of (with_downstream (window_in words.old) (step_in words.old h).downstream)) × (out.new ≡ step_out (window_in words.old).sending (window_in words.old).quantum (window_in words.old).downstream (window_in words.old).sent h.member h.number h.mask out.old) }
{
    let n = words[135] - p;
    let counts = open_at(words, 329, p, n);
    let sets = heard_after(words, h, p, n);
    let due = due_after(words, h, &counts, &sets, p);
    if due == 0 {
        put_step(h, p, &counts, &sets, words);
        return 0;
    }
    put_lost(words, h, p, due, &counts, &sets, out)
}

// An accepted report taken in the words that hold the state: its verdicts into the output, and how many there are.
// inner: for a caller that has judged the words and the report.
pub fn take_report(words: &mut [u64; 457], i: u32, c: u64, mask: u64, out: &mut [u8]) -> u32
    requires { (fits words.old ≡ true) × (Reportable (window_in words.old) i c mask (length out.old)) }
    ensures { (result ≡ (step_of (window_in words.old).downstream (window_in words.old).sent i c mask).verdicts) × (words.new ≡ words_of (with_downstream (window_in words.old) (step_of (window_in words.old).downstream (window_in words.old).sent i c mask).downstream)) × (out.new ≡ step_out (window_in words.old).sending (window_in words.old).quantum (window_in words.old).downstream (window_in words.old).sent i c mask out.old) }
{
    let h = hearing_of(words, i, c, mask);
    let p = point_after(words, i, c);
    if is_quiet(words, h, p) {
        put_report(h, p, words);
        return 0;
    }
    judge_open(words, h, p, out)
}
