// What each member holds after p as one word, and where these words change.
ghost use Rattle.std.specs.Prelude.{◌≡◌, ◌++◌, ◌≤◌, ◌<◌, length, drop};
ghost use Rattle.downstream.specs.Rows.{held_rows, Steady, SteadyUntil};

// Fills the first n places with what each member holds of the 64 messages after p.
// inner: the places are 64.
pub fn fill_held(out: &mut [u64], numbers: &[u64; 64], masks: &[u64; 64], p: u64, n: usize)
    requires { (n ≤ 64) × (n ≤ length out.old) }
    ensures { out.new ≡ held_rows numbers.now masks.now p n ++ drop n out.old }
{
    for i in 0..n {
        out[i] = marks::held_after(p, numbers[i], masks[i]);
    }
}

// The offsets after which some word changes.
pub fn changes(rows: &[u64]) -> u64
    ensures { Steady rows.now (length rows.now) result }
{
    let mut set = 0;
    for row in rows {
        set |= row ^ (row >> 1);
    }
    set
}

// Up to where, from offset o on, no word changes: without this offset, which is at most n.
// inner: for messages that have a bit.
pub fn steady_until(changing: u64, o: u64, n: u64) -> u64
    requires { (o < n) × (n ≤ 64) }
    ensures { SteadyUntil changing o n result }
{
    let still = u64::from(marks::run(!marks::past(changing, o)));
    basics::least(o + still + 1, n)
}
