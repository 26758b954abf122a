// The messages of a set, gone through by their bits: what is not in the set is not looked at.
ghost use Rattle.std.specs.Prelude.{◌≡◌, true, ◌<◌};
ghost use Rattle.std.specs.Iterator.{at_most};
ghost use Rattle.marks.specs.Masks.{is_marked, unmark_of};
ghost use Rattle.steps.specs.Columns.{first_bit, TakesFirst};

// The messages that are left, a bit for each.
#[derive(Drop)]
pub(crate) struct Messages(pub(crate) u64);

// The first bit of a set that has one.
fn first_of(set: u64) -> u64
    requires { 0 < set }
    ensures { (result ≡ first_bit set) × (is_marked set result ≡ true) × (result < 64) }
{
    u64::from(marks::run(!set))
}

// The set without that bit. The next one need not wait until the first is known.
fn without_first(set: u64) -> u64
    requires { 0 < set }
    ensures { result ≡ unmark_of set (first_bit set) }
{
    set & (set - 1)
}

// The first of them, and then the others.
impl Iterator for Messages {
    type Item = u64;

    ghost next_gives = { λ s r t. TakesFirst s.0 r t.0 };

    ghost remaining = { λ s. at_most s.0 };

    fn next(&mut self) -> Option<u64> {
        if self.0 == 0 {
            return None;
        }
        let first = first_of(self.0);
        self.0 = without_first(self.0);
        Some(first)
    }
}
