// The entries of the open messages, each after a step of its own.
ghost use Rattle.std.specs.Prelude.{◌≡◌, ℕ, ◌≤◌, ◌<◌, get_or};
ghost use Rattle.downstream.specs.declared.state.Entry.{Entry};
ghost use Rattle.downstream.specs.State.{no_entry, place_after};
ghost use Rattle.judging.specs.Complaints.{entries_after};

use downstream::Entry;

// The entries of the n messages after p, each after the step at its offset; every other entry is empty. Whatever the step gives of offset
// and entry, the entries are those that it gives.
pub(crate) fn entries_after<F: Fn(u64, Entry) -> Entry>(
    step: F,
    p: u64,
    n: u64,
    entries: [Entry; 64],
) -> [Entry; 64]
    requires near { (p ≤ 1000000000000) × (n ≤ 64) }
    requires steps { (o : ℕ) → o < n → F.pre step o (get_or entries (place_after p o) no_entry) }
    ensures { (f : ℕ → Entry → Entry) → ((o : ℕ) (e r : Entry) → o < n → F.post step o e r → r ≡ f o e) → result ≡ entries_after f p n entries }
{
    let mut next = [Entry::default(); 64];
    for o in 0..n {
        let at = ((p + o) % 64) as usize;
        next[at] = step(o, entries[at]);
    }
    next
}
