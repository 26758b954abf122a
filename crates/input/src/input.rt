// The input's 12-byte records: whether they are well built, and what they say.
ghost use Rattle.std.specs.Prelude.{◌≡◌, ◌++◌, ◌+◌, ◌/◌, ◌<◌, ◌≤◌, length, drop};
ghost use Rattle.input.specs.Input.{is_kind, number_at, is_share, shares_from, in_order, build_of, told, shares_at, numbers_of};

// The numbers beside the shares: u and r of the sending cluster, u and r of the receiving cluster, quantum and message.
#[derive(Clone, Copy)]
pub struct Numbers {
    pub su: u32,
    pub sr: u32,
    pub ru: u32,
    pub rr: u32,
    pub quantum: u32,
    pub message: u32,
}

// How many sending and receiving shares a well built input has.
#[derive(Clone, Copy)]
pub struct Build {
    pub senders: usize,
    pub receivers: usize,
}

// Where a record's two numbers start.
const FIRST: usize = 4;

const SECOND: usize = 8;

// Whether record i is there, of kind k, and zero where it must be. Kinds are the document's numbers: the definition `is_kind` takes any.
fn is_kind(s: &[u8], k: u8, i: usize) -> bool
    ensures { result ≡ is_kind k s.now i }
{
    if i < s.len() / 12 {
        let at = 12 * i;
        let kind = s[at];
        return (kind == k) & basics::all_zero(&s[at + 1..at + 4]);
    }
    false
}

// The number of record i that starts at byte `from` of it.
fn number_at(s: &[u8], i: usize, from: usize) -> u32
    requires { (i < length s.now / 12) × (from ≤ 8) }
    ensures { result ≡ number_at s.now i from }
{
    let at = 12 * i + from;
    basics::number(&s[at..at + 4]) as u32
}

fn is_share(s: &[u8], k: u8, i: usize) -> bool
    ensures { result ≡ is_share k s.now i }
{
    if is_kind(s, k, i) {
        return number_at(s, i, SECOND) == 0;
    }
    false
}

// How many shares of kind k there are from record i on, up to the first record that is none.
fn shares_from(s: &[u8], k: u8, i: usize) -> usize
    requires { i ≤ 4096 }
    ensures { (result ≡ shares_from k s.now i (length s.now / 12)) × (result ≤ length s.now / 12) }
{
    let n = s.len() / 12;
    for r in 0..n {
        if !is_share(s, k, i + r) {
            return r;
        }
    }
    n
}

// The kinds 1, 3 and 5 stand where a shares and b shares leave them, and nothing comes after.
fn in_order(s: &[u8], a: usize, b: usize) -> bool
    requires { (a ≤ 4096) × (b ≤ 4096) }
    ensures { result ≡ in_order s.now a b }
{
    let whole = s.len() == 12 * (a + b + 3);
    let one = is_kind(s, 1, 0);
    let three = is_kind(s, 3, a + 1);
    let five = is_kind(s, 5, a + b + 2);
    whole & (one & (three & five))
}

// How an input of any bytes is built, where it is well built.
pub fn build_of(s: &[u8]) -> Option<Build>
    ensures { told result ≡ build_of s.now }
{
    if 4096 < s.len() {
        return None;
    }
    let senders = shares_from(s, 2, 1);
    let receivers = shares_from(s, 4, senders + 2);
    if in_order(s, senders, receivers) {
        Some(Build { senders, receivers })
    } else {
        None
    }
}

// Copies n shares from record i on.
// inner: for records that are there.
pub fn fill_shares(s: &[u8], i: usize, n: usize, out: &mut [u32])
    requires { (i + n ≤ length s.now / 12) × (n ≤ length out.old) }
    ensures { out.new ≡ shares_at s.now i n ++ drop n out.old }
{
    for (j, share) in out[..n].iter_mut().enumerate() {
        *share = number_at(s, i + j, FIRST);
    }
}

// The numbers beside a shares of kind 2 and b of kind 4.
// inner: for records that are there.
pub fn read_numbers(s: &[u8], a: usize, b: usize) -> Numbers
    requires { a + b + 2 < length s.now / 12 }
    ensures { result ≡ numbers_of s.now a b }
{
    let third = a + 1;
    let last = a + b + 2;
    Numbers {
        su: number_at(s, 0, FIRST),
        sr: number_at(s, 0, SECOND),
        ru: number_at(s, third, FIRST),
        rr: number_at(s, third, SECOND),
        quantum: number_at(s, last, FIRST),
        message: number_at(s, last, SECOND),
    }
}
