// Putting what an accepted report changes into the words.
ghost use Rattle.std.specs.Prelude.{◌≡◌, true, ◌++◌, ◌<◌, take};
ghost use Rattle.words.specs.Taken.{fits, window_in};
ghost use Rattle.words.specs.Put.{words_of};
ghost use Rattle.steps.specs.Stored.{with_report};

use judging::Hearing;

// The report that was heard and the point, the other words being the state's already.
pub(crate) fn put_report(h: Hearing, p: u64, words: &mut [u64; 457])
    requires { (fits words.old ≡ true) × (h.member < 64) }
    ensures { words.new ≡ words_of (with_report (window_in words.old) h.member h.number h.mask p) }
{
    let at = h.member as usize;
    words[136] = p;
    words[137 + at] = h.number;
    words[201 + at] = h.mask;
    words[265 + at] = 1;
}

// The report that was heard, the point and the columns of the entries.
pub(crate) fn put_step(
    h: Hearing,
    p: u64,
    counts: &[u64; 64],
    sets: &[u64; 64],
    words: &mut [u64; 457],
)
    requires { (fits words.old ≡ true) × (h.member < 64) }
    ensures { words.new ≡ take 329 (words_of (with_report (window_in words.old) h.member h.number h.mask p)) ++ counts.now ++ sets.now }
{
    put_report(h, p, words);
    words[329..393].copy_from_slice(counts);
    words[393..457].copy_from_slice(sets);
}
