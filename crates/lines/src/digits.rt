// Decimal digits, written into a lent output from a place on. Most numbers of a plan are members or resends, of one digit or two; the
// digits of a run are put four at a time. `write!` promises its text only where it returns `Ok`, and that it does cannot be shown, while
// what `put_refused`, `put_head` and `put_resends` put is promised always.
ghost use Rattle.std.specs.Prelude.{◌≡◌, ◌+◌, ◌<◌, ◌≤◌, length};
ghost use Rattle.lines.specs.Text.{digits_of, pair_of, four_of, put};

// Both digits of a number below 100.
fn put_pair(x: u64, out: &mut [u8], at: usize)
    requires { (x < 100) × (at + 2 ≤ length out.old) }
    ensures { out.new ≡ put at (pair_of x) out.old }
{
    out[at] = 48 + ((x / 10) as u8);
    out[at + 1] = 48 + ((x % 10) as u8);
}

// All four digits of a number below 10,000.
fn put_four(x: u64, out: &mut [u8], at: usize)
    requires { (x < 10000) × (at + 4 ≤ length out.old) }
    ensures { out.new ≡ put at (four_of x) out.old }
{
    put_pair(x / 100, out, at);
    put_pair(x % 100, out, at + 2);
}

// The digits of a number below 100, one or two.
fn put_short(x: u64, out: &mut [u8], at: usize) -> usize
    requires { (x < 100) × (at + length (digits_of x) ≤ length out.old) }
    ensures { (result ≡ at + length (digits_of x)) × (out.new ≡ put at (digits_of x) out.old) }
{
    if x < 10 {
        out[at] = 48 + (x as u8);
        return at + 1;
    }
    put_pair(x, out, at);
    at + 2
}

// The digits of a number below 10,000, up to four.
fn put_few(x: u64, out: &mut [u8], at: usize) -> usize
    requires { (x < 10000) × (at + length (digits_of x) ≤ length out.old) }
    ensures { (result ≡ at + length (digits_of x)) × (out.new ≡ put at (digits_of x) out.old) }
{
    if x < 100 {
        return put_short(x, out, at);
    }
    let next = put_short(x / 100, out, at);
    put_pair(x % 100, out, next);
    next + 2
}

// The digits of any number: of a long one all but the last four are put first.
fn put_long(x: u64, out: &mut [u8], at: usize) -> usize
    requires { at + length (digits_of x) ≤ length out.old }
    ensures { (result ≡ at + length (digits_of x)) × (out.new ≡ put at (digits_of x) out.old) }
{
    if x < 10000 {
        return put_few(x, out, at);
    }
    let next = put_long(x / 10000, out, at);
    put_four(x % 10000, out, next);
    next + 4
}

// The digits of x, the highest first. A short number does not go through the recursion.
pub(crate) fn put_number(x: u64, out: &mut [u8], at: usize) -> usize
    requires { at + length (digits_of x) ≤ length out.old }
    ensures { (result ≡ at + length (digits_of x)) × (out.new ≡ put at (digits_of x) out.old) }
{
    if x < 100 {
        return put_short(x, out, at);
    }
    put_long(x, out, at)
}
