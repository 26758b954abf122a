// Changing a column of the entries at the places of a set of messages, bit o for message p + 1 + o. What is not in the set is not looked at.
ghost use Rattle.std.specs.Prelude.{◌≡◌, ◌≤◌, length};
ghost use Rattle.steps.specs.Columns.{changed_at, told_set, Small, raised_counts, emptied_sets};

use crate::messages::Messages;

// A complaint set with member i in it where it complains, and without it where it does not.
fn told_set(set: u64, i: u32, complains: bool) -> u64
    ensures { result ≡ told_set complains i set }
{
    if complains {
        marks::mark(set, u64::from(i))
    } else {
        marks::unmark(set, u64::from(i))
    }
}

// Puts member i into the complaint sets of some messages, or takes it out of them.
pub(crate) fn tell(sets: &mut [u64], messages: u64, p: u64, i: u32, complains: bool)
    requires { (length sets.old ≡ 64) × (p ≤ 1000000000000) }
    ensures { sets.new ≡ changed_at (told_set complains i) messages p sets.old }
{
    for o in Messages(messages) {
        let at = ((p + o) % 64) as usize;
        sets[at] = told_set(sets[at], i, complains);
    }
}

// Raises the resend counts of the messages that are due, and empties their complaint sets.
pub(crate) fn raise(counts: &mut [u64], sets: &mut [u64], due: u64, p: u64)
    requires { (length counts.old ≡ 64) × (Small counts.old) × (length sets.old ≡ 64) × (p ≤ 1000000000000) }
    ensures { (counts.new ≡ raised_counts due p counts.old) × (sets.new ≡ emptied_sets due p sets.old) }
{
    for o in Messages(due) {
        let at = ((p + o) % 64) as usize;
        counts[at] += 1;
        sets[at] = 0;
    }
}
