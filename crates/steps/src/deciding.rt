// Which verdicts are due once a report is heard, and their bytes.
ghost use Rattle.std.specs.Prelude.{◌≡◌, true, ◌++◌, ◌-◌, ◌/◌, ◌≤◌, length, drop};
ghost use Rattle.judging.specs.Verdicts.{due_of};
ghost use Rattle.window.specs.Formed.{well_formed};
ghost use Rattle.words.specs.Taken.{word_at, fits, window_in};
ghost use Rattle.steps.specs.Columns.{counts_after, heard_after, Small};
ghost use Rattle.steps.specs.Stepping.{Stepping, taken_in, verdicts_in};

use judging::Hearing;

// The messages that are due once the report is heard, a bit for each.
pub(crate) fn due_after(
    words: &[u64; 457],
    h: Hearing,
    counts: &[u64; 64],
    sets: &[u64; 64],
    p: u64,
) -> u64
    requires { (Stepping words.now h p) × (counts.now ≡ counts_after words.now p (word_at words.now 135 - p)) × (sets.now ≡ heard_after words.now h.member h.number h.mask h.again p (word_at words.now 135 - p)) }
    ensures { result ≡ due_of (taken_in words.now h) (window_in words.now).sent }
{
    let at = h.member as usize;
    let mut numbers = words::column_at(words, 137);
    numbers[at] = h.number;
    let mut masks = words::column_at(words, 201);
    masks[at] = h.mask;
    let cluster = words::cluster_at(words, 67);
    let members = cluster.members as usize;
    let shares = cluster.shares;
    judging::due_among(
        &shares[..members],
        cluster.u,
        cluster.r,
        &numbers,
        &masks,
        counts,
        sets,
        p,
        words[135] - p,
    )
}

// The verdicts on the messages that are due, and how many there are.
pub(crate) fn put_verdicts(
    words: &[u64; 457],
    due: u64,
    counts: &[u64; 64],
    p: u64,
    out: &mut [u8],
) -> u32
    requires { (fits words.now ≡ true) × (well_formed (window_in words.now) ≡ true) × (p ≤ word_at words.now 135) × (word_at words.now 135 - p ≤ 64) × (Small counts.now) × (1024 ≤ length out.old) }
    ensures { (result ≡ length (verdicts_in words.now due counts.now p) / 16) × (out.new ≡ verdicts_in words.now due counts.now p ++ drop (length (verdicts_in words.now due counts.now p)) out.old) }
{
    let sending = words::cluster_at(words, 0);
    let receiving = words::cluster_at(words, 67);
    let q = words::quantum_in(words);
    let senders = sending.members as usize;
    let ss = sending.shares;
    let receivers = receiving.members as usize;
    let rs = receiving.shares;
    let bytes = verdicts::verdicts_between(
        out,
        due,
        &ss[..senders],
        &rs[..receivers],
        q,
        counts,
        p,
        words[135] - p,
    );
    (bytes / 16) as u32
}
