// What a report says, and the point and the columns that it gives.
ghost use Rattle.std.specs.Prelude.{◌≡◌, true, not, ◌&&◌, ◌||◌, ◌+◌, ◌≤◌, ◌<◌, eqb, set};
ghost use Rattle.marks.specs.Held.{highest_of};
ghost use Rattle.downstream.specs.State.{report_at, point_from};
ghost use Rattle.judging.specs.Complaints.{is_again};
ghost use Rattle.words.specs.Taken.{word_at, none_above, fits, column_at, cluster_at, reports_in};

use crate::refusing::former_in;
use judging::Hearing;

// What the report of member i says.
pub(crate) fn hearing_of(words: &[u64; 457], i: u32, c: u64, mask: u64) -> Hearing
    requires { c ≤ 1000000000000 }
    ensures { result ≡ record { member = i; number = c; mask = mask; highest = highest_of c mask; again = is_again (report_at (reports_in words.now) i) c } }
{
    let former = former_in(words, i);
    let again = former.heard & (former.number == c);
    let highest = marks::highest(c, mask);
    Hearing {
        member: i,
        number: c,
        mask,
        highest,
        again,
    }
}

// The point that the members' numbers give with that of member i, the former point no longer being it.
fn point_risen(words: &[u64; 457], i: u32, c: u64) -> u64
    requires { (i < 64) × (fits words.now ≡ true) × (word_at words.now 67 ≤ 64) }
    ensures { result ≡ point_from (cluster_at words.now 67) (set (column_at words.now 137) i c) }
{
    let at = i as usize;
    let cluster = words::cluster_at(words, 67);
    let mut numbers = words::column_at(words, 137);
    numbers[at] = c;
    downstream::point_from(cluster, numbers)
}

// The point that the members' numbers give with that of member i, which has not fallen. It rises only where this member comes to those
// above the former point, and has with them share u + 1 or more.
pub(crate) fn point_after(words: &[u64; 457], i: u32, c: u64) -> u64
    requires { (i < 64) × (fits words.now ≡ true) × (word_at words.now 67 ≤ 64) × (word_at words.now 136 ≤ 1000000000000) × (none_above words.now 137 (word_at words.now 67) 1000000000000 ≡ true) × (word_at words.now 136 ≡ point_from (cluster_at words.now 67) (column_at words.now 137)) × (word_at words.now (137 + i) ≤ c) }
    ensures { result ≡ point_from (cluster_at words.now 67) (set (column_at words.now 137) i c) }
{
    let p = words[136];
    let at = i as usize;
    if c <= p {
        return p;
    }
    if p < words[137 + at] {
        return p;
    }
    let above = words::reached(words, words[67] as usize, p + 1);
    if above + words[70 + at] <= words[68] {
        return p;
    }
    point_risen(words, i, c)
}

// Whether no entry is emptied, either because nothing is collected or because nothing was ever sent again.
fn none_emptied(words: &[u64; 457], p: u64) -> bool
    ensures { result ≡ (eqb p (word_at words.now 136) || none_above words.now 329 64 0) }
{
    if p == words[136] {
        return true;
    }
    words::all_zero(words, 329, 64)
}

// Whether the report changes no entry: the member complains of nothing, nor does anybody else, and none is emptied.
pub(crate) fn is_quiet(words: &[u64; 457], h: Hearing, p: u64) -> bool
    ensures { result ≡ ((eqb p (word_at words.now 136) || none_above words.now 329 64 0) && eqb h.mask 0 && not (h.again && eqb h.number p) && none_above words.now 393 64 0) }
{
    let content = (h.mask == 0) & !(h.again & (h.number == p));
    if !content {
        return false;
    }
    let kept = none_emptied(words, p);
    let silent = words::all_zero(words, 393, 64);
    kept & silent
}
