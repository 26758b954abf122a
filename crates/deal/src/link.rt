// A link unit's two clusters and its quantum, as they are lent, with what is asked of all three.
ghost use Rattle.std.specs.Prelude.{◌≡◌};
ghost use Rattle.basics.specs.Refusals.{outcome_number};
ghost use Rattle.deal.specs.Pairs.{pair_refusal, first_pair_refusal, first_pair_of, told};

use crate::pairs::{Pair, first_receiver, first_sender};
use basics::Refusal;
use shares::LentCluster;

// What a link unit joins, accepted or not.
#[derive(Clone, Copy)]
pub struct Link<'a> {
    pub sending: LentCluster<'a>,
    pub receiving: LentCluster<'a>,
    pub quantum: u32,
}

impl Link<'_> {
    // The refusal that two clusters and a quantum get: 1, 2, 3 of the sending cluster, then of the receiving, 4.
    pub fn refusal(self) -> Result<(), Refusal>
        ensures { outcome_number result ≡ pair_refusal self.entry.sending.shares.now self.entry.sending.u self.entry.sending.r self.entry.receiving.shares.now self.entry.receiving.u self.entry.receiving.r self.entry.quantum }
    {
        self.sending.refusal()?;
        self.receiving.refusal()?;
        if !basics::is_quantum(self.quantum) {
            return Err(Refusal::Quantum);
        }
        Ok(())
    }

    fn first_pair_refusal(self, k: u64) -> Result<(), Refusal>
        ensures { outcome_number result ≡ first_pair_refusal self.entry.sending.shares.now self.entry.sending.u self.entry.sending.r self.entry.receiving.shares.now self.entry.receiving.u self.entry.receiving.r self.entry.quantum k }
    {
        self.refusal()?;
        if !basics::is_message(k) {
            return Err(Refusal::Message);
        }
        Ok(())
    }

    // The first copy's sender and receiver.
    pub fn first_pair(self, k: u64) -> Result<Pair, Refusal>
        ensures { told result ≡ first_pair_of self.entry.sending.shares.now self.entry.sending.u self.entry.sending.r self.entry.receiving.shares.now self.entry.receiving.u self.entry.receiving.r self.entry.quantum k }
    {
        self.first_pair_refusal(k)?;
        let sender = first_sender(self.sending.shares, self.quantum, k);
        let receiver = first_receiver(self.receiving.shares, self.quantum, k);
        Ok(Pair { sender, receiver })
    }
}
