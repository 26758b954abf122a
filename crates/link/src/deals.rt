// Dealing first copies, first pairs and resend pairs.
ghost use Rattle.std.specs.Prelude.{◌≡◌, length};
ghost use Rattle.hamilton.specs.Counts.{counts_refusal, counts_out};
ghost use Rattle.deal.specs.Pairs.{first_pair_of};
ghost use Rattle.resend.specs.Resends.{resend_pair_of};
ghost use Rattle.link.specs.Numbers.{pair_numbers, resend_numbers};

use crate::lent::link_of;
use shares::LentCluster;

// Hamilton's counts, into the output's first places.
#[unsafe(no_mangle)]
pub extern "C" fn havdorlek_counts(shares: &[u32], u: u32, r: u32, q: u32, out: &mut [u32]) -> u32
    ensures { (result ≡ counts_refusal shares.now u r q (length out.old)) × (out.new ≡ counts_out shares.now u r q out.old) }
{
    let cluster = LentCluster { shares, u, r };
    basics::outcome_number(hamilton::counts(cluster, q, out))
}

// The first copy's sender and receiver.
#[unsafe(no_mangle)]
pub extern "C" fn havdorlek_first_pair(
    ss: &[u32],
    su: u32,
    sr: u32,
    rs: &[u32],
    ru: u32,
    rr: u32,
    q: u32,
    k: u64,
    answer: &mut [u64; 2],
) -> u32
    ensures { (result ≡ (first_pair_of ss.now su sr rs.now ru rr q k).refusal) × (answer.new ≡ pair_numbers (first_pair_of ss.now su sr rs.now ru rr q k)) }
{
    match link_of(ss, su, sr, rs, ru, rr, q).first_pair(k) {
        Ok(pair) => {
            *answer = [u64::from(pair.sender), u64::from(pair.receiver)];
            0
        }
        Err(refusal) => {
            *answer = [0, 0];
            refusal.number()
        }
    }
}

// The sender, the receiver and the run of resend n.
#[unsafe(no_mangle)]
pub extern "C" fn havdorlek_resend_pair(
    ss: &[u32],
    su: u32,
    sr: u32,
    rs: &[u32],
    ru: u32,
    rr: u32,
    q: u32,
    k: u64,
    n: u32,
    answer: &mut [u64; 3],
) -> u32
    ensures { (result ≡ (resend_pair_of ss.now su sr rs.now ru rr q k n).refusal) × (answer.new ≡ resend_numbers (resend_pair_of ss.now su sr rs.now ru rr q k n)) }
{
    let link = link_of(ss, su, sr, rs, ru, rr, q);
    match resend::resend_pair(link, k, n) {
        Ok(resend) => {
            *answer = [
                u64::from(resend.sender),
                u64::from(resend.receiver),
                resend.run,
            ];
            0
        }
        Err(refusal) => {
            *answer = [0, 0, 0];
            refusal.number()
        }
    }
}
