// Which of the messages that enough members complain of too few hold: the dear question, asked by what each member holds after p as one
// word.
ghost use Rattle.std.specs.Prelude.{◌≡◌, cond, ◌≤◌, leb, length};
ghost use Rattle.std.specs.Int.Bits.{bit_or};
ghost use Rattle.marks.specs.Masks.{set_below, among_of};
ghost use Rattle.judging.specs.Verdicts.{is_lost};

use downstream::{changes, steady_until};

// The set with those of another between two offsets, where this share is at most u.
#[tactic(auto, using(crate::proofs::LostLaws::lost_in))]
fn with_lost(set: u64, enough: u64, from: u64, to: u64, share: u64, u: u32) -> u64
    ensures { result ≡ cond (leb share u) (bit_or set (among_of enough from to)) set }
{
    if share <= u64::from(u) {
        return set | marks::among(enough, from, to);
    }
    set
}

// Those of the first n messages of a set that members of share u at most hold, by the members' words. The share is weighed once for all
// messages from one change of some word to the next: messages that were sent one after another are mostly held together.
pub(crate) fn lost_among(shares: &[u32], u: u32, rows: &[u64], enough: u64, n: u64) -> u64
    requires { (length shares.now ≤ 64) × (length rows.now ≡ length shares.now) × (n ≤ 64) }
    ensures { result ≡ set_below n (is_lost shares.now u rows.now enough) }
{
    let changing = changes(rows);
    let mut set = 0;
    let mut o = 0;
    // From change to change, not by one.
    while o < n {
        let share = shares::marked_share(shares, rows, o);
        let next = steady_until(changing, o, n);
        set = with_lost(set, enough, o, next, share, u);
        o = next;
    }
    set
}
