// The complaint sets of the open messages, held against what the members hold. Messages that the same members hold are asked of at once,
// by all that any of their sets names.
ghost use Rattle.std.specs.Prelude.{◌≡◌, ◌-◌, ◌≤◌};
ghost use Rattle.downstream.specs.Rows.{all_complaints_kept, named_among};

use crate::formed::complaints_kept;
use crate::rows::{changes, fill_held, steady_until};

// The members that complain of any of the messages after p from one offset up to, and without, another.
fn named_among(complaints: &[u64; 64], p: u64, from: u64, to: u64) -> u64
    requires { (from ≤ to) × (to ≤ 64) × (p ≤ 1000000000000) }
    ensures { result ≡ named_among complaints.now p from (to - from) }
{
    let mut any = 0;
    for o in from..to {
        any |= complaints[((p + o) % 64) as usize];
    }
    any
}

// Whether the complaint sets of the n messages after p name only members that exist and lack the message.
// inner: the places are 64.
pub fn all_complaints_kept(
    members: usize,
    numbers: &[u64; 64],
    masks: &[u64; 64],
    complaints: &[u64; 64],
    p: u64,
    n: u64,
) -> bool
    requires { (members ≤ 64) × (p ≤ 1000000000000) × (n ≤ 64) }
    ensures { result ≡ all_complaints_kept members numbers.now masks.now complaints.now p n }
{
    let mut rows = [0u64; 64];
    fill_held(&mut rows, numbers, masks, p, members);
    let changing = changes(&rows[..members]);
    let mut kept = true;
    let mut o = 0;
    // From change to change, not by one.
    while o < n {
        let next = steady_until(changing, o, n);
        let bits = named_among(complaints, p, o, next);
        let told = complaints_kept(members, numbers, masks, p + 1 + o, bits);
        kept = kept & told;
        o = next;
    }
    kept
}
