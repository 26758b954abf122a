// Hamilton's counts of an accepted cluster.
ghost use Rattle.std.specs.Prelude.{◌≡◌, cond, ◌++◌, ℕ, ◌+◌, ◌≤◌, ◌<◌, ltb, length, get_or, drop};
ghost use Rattle.basics.specs.Sums.{list_below};
ghost use Rattle.basics.specs.Refusals.{outcome_number};
ghost use Rattle.hamilton.specs.Hamilton.{counts_of, Dealable};
ghost use Rattle.hamilton.specs.Counts.{later_refusal, counts_refusal, counts_out};
ghost use Rattle.shares.specs.Shares.{total_of};

use crate::quotas::fill_quotas;
use crate::ranks::{is_below, threshold};
use basics::Refusal;
use shares::LentCluster;

// A lower quota, and one more where the member's key is below the end.
fn count(quota: u32, key: u32, end: u32) -> u32
    requires { quota ≤ 1024 }
    ensures { result ≡ quota + cond (ltb key end) 1 0 }
{
    quota + is_below(key, end)
}

// Turns the members' lower quotas into their counts.
fn add_leftovers(keys: &[u32], end: u32, out: &mut [u32])
    requires within { length keys.now ≤ length out.old }
    requires small { (i : ℕ) → i < length keys.now → get_or out.old i 0 ≤ 1024 }
    ensures { out.new ≡ list_below (length keys.now) (λ i. get_or out.old i 0 + cond (ltb (get_or keys.now i 0) end) 1 0) ++ drop (length keys.now) out.old }
{
    for (i, key) in keys.iter().enumerate() {
        out[i] = count(out[i], *key, end);
    }
}

// Fills the output with the counts, one place for each member, the total share being d.
fn fill_counts_of(shares: &[u32], d: u32, q: u32, out: &mut [u32])
    requires dealable { Dealable shares.now q }
    requires total { (d ≡ total_of shares.now) × (length shares.now ≤ length out.old) }
    ensures { out.new ≡ counts_of shares.now q ++ drop (length shares.now) out.old }
{
    let mut places = [0u32; 64];
    let keys = &mut places[..shares.len()];
    let rest = fill_quotas(shares, q, d, keys, out);
    let end = threshold(keys, rest, (d + 1) * 64);
    add_leftovers(keys, end, out);
}

// Fills the output with the counts, one place for each member.
// inner: for a caller that has judged the cluster and asks for many slots of one deal.
pub fn fill_counts(shares: &[u32], q: u32, out: &mut [u32])
    requires dealable { Dealable shares.now q }
    requires room { length shares.now ≤ length out.old }
    ensures { out.new ≡ counts_of shares.now q ++ drop (length shares.now) out.old }
{
    let d = shares::total(shares);
    fill_counts_of(shares, d as u32, q, out);
}

// What the call for counts may be refused with after its cluster: 4, 5, for so many members and places.
fn later_refusal(q: u32, members: usize, room: usize) -> Result<(), Refusal>
    ensures { outcome_number result ≡ later_refusal q members room }
{
    if !basics::is_quantum(q) {
        return Err(Refusal::Quantum);
    }
    if room < members {
        return Err(Refusal::ShortOutput);
    }
    Ok(())
}

// Hamilton's counts: refused, or the counts in the output's first places.
pub fn counts(cluster: LentCluster, q: u32, out: &mut [u32]) -> Result<(), Refusal>
    ensures { (outcome_number result ≡ counts_refusal cluster.entry.shares.now cluster.entry.u cluster.entry.r q (length out.old)) × (out.new ≡ counts_out cluster.entry.shares.now cluster.entry.u cluster.entry.r q out.old) }
{
    let judged = cluster.judge();
    judged.outcome?;
    later_refusal(q, cluster.shares.len(), out.len())?;
    fill_counts_of(cluster.shares, judged.total, q, out);
    Ok(())
}
