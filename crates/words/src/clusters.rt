// Whether an accepted cluster stands in words, judged where it lies. `shares` judges lent shares of 32 bits; C lends the state as words of 64,
// which may be too large for a share, and then no sum is made of them.
ghost use Rattle.std.specs.Prelude.{◌≡◌, true, ◌&&◌, ◌+◌, ◌*◌, ◌≤◌, ◌<◌, eqb, take};
ghost use Rattle.shares.specs.Shares.{total_of};
ghost use Rattle.shares.specs.Cluster.{is_share, shares_fit, bounds_fit};
ghost use Rattle.downstream.specs.Formed.{cluster_kept};
ghost use Rattle.words.specs.Taken.{word_at, none_above, column_at, cluster_at};

use crate::straight::{all_narrow, all_zero};

// 0 for a share that is allowed: bit 63 is set in the first part for 0 alone, and in the second above 1,000,000.
fn share_off(share: u64) -> u64
    requires { share ≤ 4294967295 }
    ensures { eqb result 0 ≡ is_share share }
{
    ((9_223_372_036_854_775_808 - share) | (share + 9_223_372_036_853_775_807)) >> 63
}

// Whether the n shares from a place on are allowed.
fn shares_fit(words: &[u64; 457], at: usize, n: usize) -> bool
    requires { (at + n ≤ 457) × (n ≤ 64) × (none_above words.now at n 4294967295 ≡ true) }
    ensures { result ≡ shares_fit (take n (column_at words.now at)) }
{
    let mut off = 0;
    for share in &words[at..at + n] {
        off |= share_off(*share);
    }
    off == 0
}

// The total of the n shares from a place on.
fn total_at(words: &[u64; 457], at: usize, n: usize) -> u64
    requires { (at + n ≤ 457) × (n ≤ 64) × (none_above words.now at n 4294967295 ≡ true) }
    ensures { (result ≡ total_of (take n (column_at words.now at))) × (result ≤ 64 * 4294967295) }
{
    words[at..at + n].iter().sum()
}

// Whether u and r are bounds that the n members of the cluster at a place bear. Above the total no u is one, and up to it no sum wraps.
fn bounds_fit(words: &[u64; 457], at: usize, n: usize) -> bool
    requires { (at + 67 ≤ 457) × (n ≤ 64) × (none_above words.now (at + 3) n 4294967295 ≡ true) }
    ensures { result ≡ bounds_fit (take n (column_at words.now (at + 3))) (word_at words.now (at + 1)) (word_at words.now (at + 2)) }
{
    let d = total_at(words, at + 3, n);
    let u = words[at + 1];
    let r = words[at + 2];
    if d < u {
        return false;
    }
    if u < r {
        return false;
    }
    2 * u + r + 1 <= d
}

// Whether the n shares of the cluster at a place are allowed, and its bounds. A share of more than 32 bits is not, and no sum is made of it.
fn fit_at(words: &[u64; 457], at: usize, n: usize) -> bool
    requires { (at + 67 ≤ 457) × (n ≤ 64) }
    ensures { result ≡ (shares_fit (take n (column_at words.now (at + 3))) && bounds_fit (take n (column_at words.now (at + 3))) (word_at words.now (at + 1)) (word_at words.now (at + 2))) }
{
    if !all_narrow(words, at + 3, n) {
        return false;
    }
    let shares = shares_fit(words, at + 3, n);
    let bounds = bounds_fit(words, at, n);
    shares & bounds
}

// Whether the cluster at a place is accepted, and the words past its members' shares are zero.
pub(crate) fn cluster_kept(words: &[u64; 457], at: usize) -> bool
    requires { at + 67 ≤ 457 }
    ensures { result ≡ cluster_kept (cluster_at words.now at) }
{
    let members = words[at];
    if members < 1 {
        return false;
    }
    if 64 < members {
        return false;
    }
    let n = members as usize;
    let fit = fit_at(words, at, n);
    let past = all_zero(words, at + 3 + n, 64 - n);
    fit & past
}
