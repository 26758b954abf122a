// Putting the state of a window that is just opened: nothing sent, nothing reported.
ghost use Rattle.std.specs.Prelude.{◌≡◌, ◌≤◌, length, get_or};
ghost use Rattle.basics.specs.Sums.{list_below};
ghost use Rattle.window.specs.Opening.{cluster_from, window_from, no_window};
ghost use Rattle.words.specs.Put.{zeros, cluster_words, words_of};

use deal::Link;
use shares::LentCluster;

// The lent shares; past their end the places stay zero.
fn put_shares(shares: &[u32], out: &mut [u64])
    requires { (length shares.now ≤ 64) × (length out.old ≡ 64) × (out.old ≡ zeros 64) }
    ensures { out.new ≡ list_below 64 (λ i. get_or shares.now i 0) }
{
    for (i, share) in shares.iter().enumerate() {
        out[i] = basics::wide(*share);
    }
}

fn put_cluster(lent: LentCluster, out: &mut [u64])
    requires { (length lent.shares.now ≤ 64) × (length out.old ≡ 67) × (out.old ≡ zeros 67) }
    ensures { out.new ≡ cluster_words (cluster_from lent.entry.shares.now lent.entry.u lent.entry.r) }
{
    put_shares(lent.shares, &mut out[3..67]);
    let members = lent.shares.len() as u64;
    out[0..3].copy_from_slice(&[members, u64::from(lent.u), u64::from(lent.r)]);
}

// The words of a refused opening: all at once, which takes less time than part by part.
pub fn put_none(words: &mut [u64; 457])
    ensures { words.new ≡ words_of no_window }
{
    words.fill(0);
}

// The words of a window between two clusters that is just opened, put into those of no window: only what is not zero need be put then.
// inner: for accepted clusters, which have at most 64 members, and words that were made those of a refused opening before.
pub fn put_opened(link: Link, words: &mut [u64; 457])
    requires { (length link.sending.shares.now ≤ 64) × (length link.receiving.shares.now ≤ 64) × (words.old ≡ words_of no_window) }
    ensures { words.new ≡ words_of (window_from (cluster_from link.entry.sending.shares.now link.entry.sending.u link.entry.sending.r) (cluster_from link.entry.receiving.shares.now link.entry.receiving.u link.entry.receiving.r) link.entry.quantum) }
{
    put_cluster(link.sending, &mut words[0..67]);
    put_cluster(link.receiving, &mut words[67..134]);
    words[134..137].copy_from_slice(&[u64::from(link.quantum), 0, 0]);
}
