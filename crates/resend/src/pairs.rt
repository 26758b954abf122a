// Resend pairs for any two clusters, quantum, message and resend number.
ghost use Rattle.std.specs.Prelude.{◌≡◌};
ghost use Rattle.basics.specs.Refusals.{outcome_number};
ghost use Rattle.resend.specs.Resends.{resend_refusal, resend_pair_of, told};

use basics::Refusal;
use circle::Resend;
use deal::Link;

fn resend_refusal(link: Link, k: u64, n: u32) -> Result<(), Refusal>
    ensures { outcome_number result ≡ resend_refusal link.entry.sending.shares.now link.entry.sending.u link.entry.sending.r link.entry.receiving.shares.now link.entry.receiving.u link.entry.receiving.r link.entry.quantum k n }
{
    link.refusal()?;
    if !basics::is_message(k) {
        return Err(Refusal::Message);
    }
    if !basics::is_resend(n) {
        return Err(Refusal::Resend);
    }
    Ok(())
}

// Resend n of message k: its two ends and its run.
pub fn resend_pair(link: Link, k: u64, n: u32) -> Result<Resend, Refusal>
    ensures { told result ≡ resend_pair_of link.entry.sending.shares.now link.entry.sending.u link.entry.sending.r link.entry.receiving.shares.now link.entry.receiving.u link.entry.receiving.r link.entry.quantum k n }
{
    resend_refusal(link, k, n)?;
    let (ss, rs) = (link.sending.shares, link.receiving.shares);
    let first = deal::first_sender(ss, link.quantum, k) as usize;
    Ok(circle::resend_at(ss, rs, first, n))
}
