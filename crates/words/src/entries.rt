// The entries of the open messages, and the places that are not open, judged in the words where they lie. Counts and complaint sets lie in
// columns of their own, and each is judged by straight passes; only where somebody complains are the sets gone through one by one.
ghost use Rattle.std.specs.Prelude.{◌≡◌, ◌+◌, ◌≤◌, ◌<◌};
ghost use Rattle.downstream.specs.Formed.{entries_kept};
ghost use Rattle.words.specs.Taken.{column_at, entries_in};
ghost use Rattle.words.specs.Straight.{any_in};
ghost use Rattle.words.specs.Entries.{closed_zero, counts_kept, sets_told, sets_kept};

use crate::judgement::column_at;
use crate::straight::all_zero;

// Whether a column of the entries is zero for every message that is not one of the n after p. Their places go round once: what is closed
// lies before and behind the open ones, or between their two ends.
fn closed_zero(words: &[u64; 457], at: usize, p: u64, n: usize) -> bool
    requires { (at + 64 ≤ 457) × (n ≤ 64) }
    ensures { result ≡ closed_zero words.now at p n }
{
    let first = (p % 64) as usize;
    let end = first + n;
    if end <= 64 {
        let before = all_zero(words, at, first);
        let behind = all_zero(words, at + end, 64 - end);
        before & behind
    } else {
        all_zero(words, at + end - 64, 64 - n)
    }
}

// Whether the resend counts of the n messages after p are at most 255, and all others 0, the bits of all of them being known.
fn counts_kept(words: &[u64; 457], counts: u64, p: u64, n: usize) -> bool
    requires { (n ≤ 64) × (counts ≡ any_in words.now 329 64) }
    ensures { result ≡ counts_kept words.now p n }
{
    let closed = closed_zero(words, 329, p, n);
    (counts <= 255) & closed
}

// Whether the complaint sets of the n messages after p name only members that exist and lack the message.
fn sets_told(words: &[u64; 457], members: usize, p: u64, n: usize) -> bool
    requires { (members ≤ 64) × (p ≤ 1000000000000) × (n ≤ 64) }
    ensures { result ≡ sets_told words.now members p n }
{
    let numbers = column_at(words, 137);
    let masks = column_at(words, 201);
    let complaints = column_at(words, 393);
    downstream::all_complaints_kept(members, &numbers, &masks, &complaints, p, n as u64)
}

// Whether the complaint sets of the n messages after p do, and all others are empty, all that they name being known.
fn sets_kept(words: &[u64; 457], sets: u64, members: usize, p: u64, n: usize) -> bool
    requires { (members ≤ 64) × (p ≤ 1000000000000) × (n ≤ 64) × (sets ≡ any_in words.now 393 64) }
    ensures { result ≡ sets_kept words.now members p n }
{
    if sets == 0 {
        return true;
    }
    if !closed_zero(words, 393, p, n) {
        return false;
    }
    sets_told(words, members, p, n)
}

// Whether the entries are kept, p + 1 to s being open. Where all are empty there is nothing more to ask.
pub(crate) fn entries_kept(words: &[u64; 457], members: usize, p: u64, s: u64) -> bool
    requires { (members ≤ 64) × (p ≤ 1000000000000) × (p ≤ s) × (s ≤ p + 64) }
    ensures { result ≡ entries_kept members (column_at words.now 137) (column_at words.now 201) (entries_in words.now) p s }
{
    let counts = marks::any_of(&words[329..393]);
    let sets = marks::any_of(&words[393..457]);
    if counts | sets == 0 {
        return true;
    }
    let n = (s - p) as usize;
    let counted = counts_kept(words, counts, p, n);
    let told = sets_kept(words, sets, members, p, n);
    counted & told
}
