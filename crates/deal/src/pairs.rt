// The first copy of a message: who sends it, and to whom.
ghost use Rattle.std.specs.Prelude.{◌≡◌, ◌<◌};
ghost use Rattle.hamilton.specs.Hamilton.{counts_of, Dealable};
ghost use Rattle.deal.specs.Rounds.{owner_of};
ghost use Rattle.deal.specs.Pairs.{sender_of, receiver_of};

use crate::dealer::Dealer;

// The first copy's two ends.
#[derive(Clone, Copy, Default)]
pub struct Pair {
    pub sender: u32,
    pub receiver: u32,
}

// The owner of a slot in the cluster's deal.
fn owner(shares: &[u32], q: u32, slot: u32) -> u32
    requires { (Dealable shares.now q) × (slot < q) }
    ensures { result ≡ owner_of (counts_of shares.now q) q slot }
{
    let mut places = [0u32; 64];
    hamilton::fill_counts(shares, q, &mut places);
    let n = shares.len();
    let mut dealer = Dealer::at(&places[..n], q, slot);
    dealer.deal()
}

// Who sends the first copy of message k.
// inner: for a caller that has judged the cluster and the quantum.
pub fn first_sender(shares: &[u32], q: u32, k: u64) -> u32
    requires { Dealable shares.now q }
    ensures { result ≡ sender_of shares.now q k }
{
    let slot = k.saturating_sub(1) % (q as u64);
    owner(shares, q, slot as u32)
}

// Who receives it: each quantum starts one slot further on.
pub(crate) fn first_receiver(shares: &[u32], q: u32, k: u64) -> u32
    requires { Dealable shares.now q }
    ensures { result ≡ receiver_of shares.now q k }
{
    let before = k.saturating_sub(1);
    let width = q as u64;
    let turned = before % width + before / width;
    let slot = turned % width;
    owner(shares, q, slot as u32)
}
