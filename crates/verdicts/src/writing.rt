// Writing the verdicts: each into the part of the lent output that is not yet written.
ghost use Rattle.std.specs.Prelude.{◌≡◌, cond, ◌++◌, ℕ, ◌+◌, ◌%◌, ◌≤◌, ◌<◌, length, take, drop, get_or};
ghost use Rattle.hamilton.specs.Hamilton.{Dealable};
ghost use Rattle.circle.specs.Positions.{Sized};
ghost use Rattle.verdicts.specs.Written.{verdict_bytes, verdict_from, verdicts_to, verdicts_of, verdict_count, Ready, Writing};

use circle::Table;
use deal::Dealer;
use downstream::{Cluster, Downstream, counts_of};

// The 16 bytes of a verdict at the start of a part; what lies behind them stays.
fn put_verdict(part: &mut [u8], k: u64, sender: u32, receiver: u32, n: u32)
    requires { 16 ≤ length part.old }
    ensures { part.new ≡ verdict_bytes k sender receiver n ++ drop 16 part.old }
{
    basics::put_number(&mut part[0..8], k);
    basics::put_number(&mut part[8..9], sender as u64);
    basics::put_number(&mut part[9..10], receiver as u64);
    basics::put_number(&mut part[10..11], n as u64);
    basics::put_number(&mut part[11..16], 0);
}

// The verdict on message k, whose first copy member i sent, behind the bytes already written, where it is due; and where the next one goes.
fn put_due(out: &mut [u8], at: usize, due: bool, table: &Table, i: u32, k: u64, count: u32) -> usize
    requires { (at + 16 ≤ length out.old) × (i < length table.now.ss.now) × (count ≤ 255) }
    ensures { (result ≡ cond due (at + 16) at) × (out.new ≡ cond due (take at out.old ++ (verdict_from table.now.ss.now table.now.rs.now i k (count + 1) ++ drop (at + 16) out.old)) out.old) }
{
    if due {
        let n = count + 1;
        let ends = table.ends(i as usize, n);
        put_verdict(&mut out[at..], k, ends.sender, ends.receiver, n);
        return at + 16;
    }
    at
}

// The verdicts on those of the n messages after p that are due, one after another; and how many bytes they take. The messages' slots are
// dealt one after another as well, from that of the first.
fn put_verdicts(
    out: &mut [u8],
    due: u64,
    table: &Table,
    mut dealer: Dealer,
    counts: &[u64; 64],
    p: u64,
    n: u64,
) -> usize
    requires room { 1024 ≤ length out.old }
    requires ready { (Ready table.now.ss.now table.now.rs.now dealer.counts.now dealer.q) × (dealer.slot ≡ p % dealer.q) }
    requires open { (p ≤ 1000000000000) × (n ≤ 64) × ((j : ℕ) → get_or counts.now j 0 ≤ 255) }
    ensures { (result ≡ length (verdicts_to table.now.ss.now table.now.rs.now dealer.entry.q due counts.now p n)) × (out.new ≡ verdicts_to table.now.ss.now table.now.rs.now dealer.entry.q due counts.now p n ++ drop result out.old) }
{
    let mut at: usize = 0;
    for o in 0..n {
        let place = ((p + o) % 64) as usize;
        let count = counts[place] as u32;
        let marked = marks::is_marked(due, o);
        let sender = dealer.deal();
        at = put_due(out, at, marked, table, sender, p + 1 + o, count);
    }
    at
}

// The same, between clusters with these shares, the table of one turn being made once for all of them.
// inner: for the report step, which knows what is due; its state may lie in words.
pub fn verdicts_between(
    out: &mut [u8],
    due: u64,
    ss: &[u32],
    rs: &[u32],
    q: u32,
    counts: &[u64; 64],
    p: u64,
    n: u64,
) -> usize
    requires { (1024 ≤ length out.old) × (Sized ss.now) × (Sized rs.now) × (Dealable ss.now q) × (p ≤ 1000000000000) × (n ≤ 64) × ((j : ℕ) → get_or counts.now j 0 ≤ 255) }
    ensures { (result ≡ length (verdicts_to ss.now rs.now q due counts.now p n)) × (out.new ≡ verdicts_to ss.now rs.now q due counts.now p n ++ drop result out.old) }
{
    let mut places = [0u32; 64];
    hamilton::fill_counts(ss, q, &mut places);
    let mut senders = [0; 128];
    let mut receivers = [0; 128];
    let mut begins = [128; 64];
    let count = circle::fill_turn(ss, rs, &mut senders, &mut receivers, &mut begins);
    let table = Table {
        ss,
        rs,
        senders: &senders,
        receivers: &receivers,
        begins: &begins,
        count,
    };
    let members = ss.len();
    let dealer = Dealer::at(&places[..members], q, (p % (q as u64)) as u32);
    put_verdicts(out, due, &table, dealer, counts, p, n)
}

// The verdicts on the messages up to S, those that are due being known; and how many there are. Where none is due, nothing is counted out.
// inner: for the report step, which knows what is due.
pub fn write_verdicts(
    sending: Cluster,
    q: u32,
    d: Downstream,
    s: u64,
    due: u64,
    out: &mut [u8],
) -> u32
    requires { (Writing sending q d s due) × (1024 ≤ length out.old) }
    ensures { (result ≡ verdict_count d s) × (out.new ≡ verdicts_of sending q d s ++ drop (length (verdicts_of sending q d s)) out.old) }
{
    if due == 0 {
        return 0;
    }
    let n = sending.members as usize;
    let ss = sending.shares;
    let m = d.cluster.members as usize;
    let rs = d.cluster.shares;
    let p = d.point;
    let entries = d.entries;
    let counts = counts_of(entries);
    let bytes = verdicts_between(out, due, &ss[..n], &rs[..m], q, &counts, p, s - p);
    (bytes / 16) as u32
}
