// Straight passes over words: what is gathered from them tells of all of them at once, and no word is branched on.
ghost use Rattle.std.specs.Prelude.{◌≡◌, ◌+◌, ◌≤◌};
ghost use Rattle.words.specs.Taken.{none_above};

// Whether n words from a place on are zero.
// inner: for places among the 457.
pub fn all_zero(words: &[u64; 457], from: usize, n: usize) -> bool
    requires { from + n ≤ 457 }
    ensures { result ≡ none_above words.now from n 0 }
{
    marks::any_of(&words[from..from + n]) == 0
}

// Whether n words from a place on have 32 bits.
pub(crate) fn all_narrow(words: &[u64; 457], from: usize, n: usize) -> bool
    requires { from + n ≤ 457 }
    ensures { result ≡ none_above words.now from n 4294967295 }
{
    marks::any_of(&words[from..from + n]) <= 4_294_967_295
}
