// Whether a well-formed state stands in the words. They are judged where they lie, in straight passes where that can be.
ghost use Rattle.std.specs.Prelude.{◌≡◌, true, ◌+◌, ◌≤◌};
ghost use Rattle.downstream.specs.Formed.{cluster_kept, span_kept, downstream_kept};
ghost use Rattle.words.specs.Taken.{word_at, none_above, column_at, cluster_at, window_in, formed_in};

use crate::clusters::cluster_kept;
use crate::entries::entries_kept;
use crate::point::point_kept;
use crate::reports::{flags_fit, reports_kept};

// The 64 words from a place on.
// inner: for places among the 457.
pub fn column_at(words: &[u64; 457], at: usize) -> [u64; 64]
    requires { at + 64 ≤ 457 }
    ensures { result ≡ column_at words.now at }
{
    let mut column = [0u64; 64];
    column.copy_from_slice(&words[at..at + 64]);
    column
}

// All that belongs to the receiving cluster, its span and the cluster itself being kept.
fn parts_kept(words: &[u64; 457]) -> bool
    requires { (none_above words.now 265 64 1 ≡ true) × (span_kept (word_at words.now 136) (word_at words.now 135) ≡ true) × (cluster_kept (cluster_at words.now 67) ≡ true) }
    ensures { result ≡ downstream_kept (window_in words.now).downstream (window_in words.now).sent }
{
    let s = words[135];
    let p = words[136];
    let n = words[67] as usize;
    if !reports_kept(words, n as u32, s) {
        return false;
    }
    let point = point_kept(words, n, p);
    let open = entries_kept(words, n, p, s);
    point & open
}

// All that belongs to the receiving cluster.
fn downstream_kept(words: &[u64; 457]) -> bool
    requires { none_above words.now 265 64 1 ≡ true }
    ensures { result ≡ downstream_kept (window_in words.now).downstream (window_in words.now).sent }
{
    if !downstream::span_kept(words[136], words[135]) {
        return false;
    }
    if !cluster_kept(words, 67) {
        return false;
    }
    parts_kept(words)
}

// Whether a well-formed state stands in the words. No word of one is too large for its field, so that this is asked of those words alone
// of which the state keeps less than they say.
pub fn formed(words: &[u64; 457]) -> bool
    ensures { result ≡ formed_in words.now }
{
    if !flags_fit(words) {
        return false;
    }
    let quantum = words[134];
    if 4_294_967_295 < quantum {
        return false;
    }
    let sending = cluster_kept(words, 0);
    let allowed = basics::is_quantum(quantum as u32);
    let kept = downstream_kept(words);
    sending & allowed & kept
}
