// The complaint sets of the entries as a report changes them. What it holds and what it may complain of are two words over the messages
// after p, made once.
ghost use Rattle.std.specs.Prelude.{◌≡◌, true, cond, ◌&&◌, ◌-◌, ◌≤◌, eqb};
ghost use Rattle.std.specs.Int.Bits.{bit_or};
ghost use Rattle.marks.specs.Held.{highest_of, held_after};
ghost use Rattle.words.specs.Entries.{closed_zero};
ghost use Rattle.words.specs.Taken.{word_at};
ghost use Rattle.steps.specs.Columns.{heard_after};

use crate::changing::tell;
use crate::columns::open_at;
use judging::Hearing;

// The messages that the report complains of unless it holds them, a bit for each after p: those below the highest that it holds, and the
// first where the member repeats its number and that is p.
fn missing_after(h: Hearing, p: u64) -> u64
    ensures { result ≡ bit_or (held_after p (h.highest - 1) 0) (cond (h.again && eqb h.number p) 1 0) }
{
    let below = marks::held_after(p, basics::less(h.highest, 1), 0);
    below | u64::from(h.again & (h.number == p))
}

// The complaint sets of the n messages after p with the report heard; every other set is empty.
pub(crate) fn heard_after(words: &[u64; 457], h: Hearing, p: u64, n: u64) -> [u64; 64]
    requires { (h.highest ≡ highest_of h.number h.mask) × (p ≤ 1000000000000) × (p ≡ word_at words.now 136 → closed_zero words.now 393 p n ≡ true) }
    ensures { result ≡ heard_after words.now h.member h.number h.mask h.again p n }
{
    let held = marks::held_after(p, h.number, h.mask);
    let missing = missing_after(h, p);
    let holds = marks::among(held, 0, n);
    let lacks = marks::among(missing & !held, 0, n);
    let mut sets = open_at(words, 393, p, n);
    tell(&mut sets, holds, p, h.member, false);
    tell(&mut sets, lacks, p, h.member, true);
    sets
}
