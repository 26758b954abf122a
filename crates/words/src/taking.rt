// Taking parts of a state out of words. Any words at all may stand there: which are too large for their fields is asked first.
ghost use Rattle.std.specs.Prelude.{◌≡◌, true, ◌+◌, ◌≤◌};
ghost use Rattle.words.specs.Taken.{word_at, fits, column_at, cluster_at};

use downstream::Cluster;

// The 64 shares from a place on.
fn shares_at(words: &[u64; 457], at: usize) -> [u32; 64]
    requires { (at + 64 ≤ 135) × (fits words.now ≡ true) }
    ensures { result ≡ column_at words.now at }
{
    let mut shares = [0u32; 64];
    for (i, share) in shares.iter_mut().enumerate() {
        *share = words[at + i] as u32;
    }
    shares
}

// A cluster from a place on.
// inner: for a caller that has asked whether the words fit.
pub fn cluster_at(words: &[u64; 457], at: usize) -> Cluster
    requires { (at + 67 ≤ 135) × (fits words.now ≡ true) }
    ensures { result ≡ cluster_at words.now at }
{
    let members = words[at];
    let u = words[at + 1];
    let r = words[at + 2];
    let shares = shares_at(words, at + 3);
    Cluster {
        members: members as u32,
        u: u as u32,
        r: r as u32,
        shares,
    }
}

// The quantum.
// inner: for a caller that has asked whether the words fit.
pub fn quantum_in(words: &[u64; 457]) -> u32
    requires { fits words.now ≡ true }
    ensures { result ≡ word_at words.now 134 }
{
    words[134] as u32
}
