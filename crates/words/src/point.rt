// Whether p is the point that the members' numbers give, asked as `shares::is_point` does of lent shares, here in the words that C lends.
ghost use Rattle.std.specs.Prelude.{◌≡◌, true, cond, ◌+◌, ◌*◌, ◌≤◌, ◌<◌, leb, eqb, take};
ghost use Rattle.shares.specs.Point.{reached_of, point_of};
ghost use Rattle.words.specs.Taken.{word_at, none_above, column_at};

// All of 32 bits where a number is at least g, else none: bit 63 of the sum says so, and no comparison of 64 bits is made.
fn reached_bits(number: u64, g: u64) -> u64
    requires { (number ≤ 1000000000000) × (g ≤ 1000000000001) }
    ensures { result ≡ cond (leb g number) 4294967295 0 }
{
    let bit = (number + (9_223_372_036_854_775_808 - g)) >> 63;
    bit * 4_294_967_295
}

// The share of the n members whose number is at least g.
// inner: for members that have places, shares that fit, and numbers in range.
pub fn reached(words: &[u64; 457], n: usize, g: u64) -> u64
    requires { (n ≤ 64) × (none_above words.now 70 n 4294967295 ≡ true) × (none_above words.now 137 n 1000000000000 ≡ true) × (g ≤ 1000000000001) }
    ensures { (result ≡ reached_of (take n (column_at words.now 70)) (column_at words.now 137) g) × (result ≤ 64 * 4294967295) }
{
    let mut sum = 0;
    for (i, share) in words[70..70 + n].iter().enumerate() {
        sum += share & reached_bits(words[137 + i], g);
    }
    sum
}

// Whether p is the largest number that members of share u + 1 or more reach: it is reached, or is 0, and the next number is not.
pub(crate) fn point_kept(words: &[u64; 457], n: usize, p: u64) -> bool
    requires { (n ≤ 64) × (none_above words.now 70 n 4294967295 ≡ true) × (none_above words.now 137 n 1000000000000 ≡ true) × (word_at words.now 68 ≤ 4294967295) × (p ≤ 1000000000000) }
    ensures { result ≡ eqb p (point_of (take n (column_at words.now 70)) (column_at words.now 137) (word_at words.now 68 + 1)) }
{
    let t = words[68] + 1;
    let here = reached(words, n, p);
    let next = reached(words, n, p + 1);
    ((p == 0) | (t <= here)) & (next < t)
}
