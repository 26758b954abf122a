// The members' reports, judged in the words where they lie: clause by clause as `downstream` does by value, since C lends words.
ghost use Rattle.std.specs.Prelude.{◌≡◌, true, ◌≤◌, ◌<◌};
ghost use Rattle.basics.specs.Sums.{all_below};
ghost use Rattle.downstream.specs.Formed.{report_kept, reports_kept};
ghost use Rattle.words.specs.Taken.{none_above, report_in, reports_in};

use crate::straight::all_zero;
use downstream::Report;

// Whether each member's word says that it has reported or that it has not: no other is 0 or 1.
pub(crate) fn flags_fit(words: &[u64; 457]) -> bool
    ensures { result ≡ none_above words.now 265 64 1 }
{
    marks::any_of(&words[265..329]) <= 1
}

// The report of member i.
// inner: for the 64 that have places.
pub fn report_in(words: &[u64; 457], i: usize) -> Report
    requires { i < 64 }
    ensures { result ≡ report_in words.now i }
{
    Report {
        number: words[137 + i],
        mask: words[201 + i],
        heard: words[265 + i] == 1,
    }
}

// Whether the report of member i is kept.
fn report_kept(words: &[u64; 457], members: u32, s: u64, i: usize) -> bool
    requires { i < 64 }
    ensures { result ≡ report_kept members s i (report_in words.now i) }
{
    downstream::report_kept(members, s, i, report_in(words, i))
}

// Whether the reports of all members are kept.
fn members_kept(words: &[u64; 457], members: u32, s: u64) -> bool
    requires { members ≤ 64 }
    ensures { result ≡ all_below members (λ i. report_kept members s i (report_in words.now i)) }
{
    let mut kept = true;
    for i in 0..members as usize {
        kept &= report_kept(words, members, s, i);
    }
    kept
}

// Whether the reports in all places are kept. Past the members' end they are zero, which three straight passes tell.
pub(crate) fn reports_kept(words: &[u64; 457], members: u32, s: u64) -> bool
    requires { (members ≤ 64) × (none_above words.now 265 64 1 ≡ true) }
    ensures { result ≡ reports_kept members (reports_in words.now) s }
{
    let n = members as usize;
    let told = members_kept(words, members, s);
    let numbers = all_zero(words, 137 + n, 64 - n);
    let masks = all_zero(words, 201 + n, 64 - n);
    let heard = all_zero(words, 265 + n, 64 - n);
    told & numbers & masks & heard
}
