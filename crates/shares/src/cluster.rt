// Which clusters are accepted.
ghost use Rattle.std.specs.Prelude.{◌≡◌, ◌&&◌, ◌+◌, ◌*◌, leb};
ghost use Rattle.basics.specs.Refusals.{outcome_number};
ghost use Rattle.shares.specs.Cluster.{cluster_refusal, cluster_answer, told};

use crate::weighing::weigh;
use basics::Refusal;

// u and r may be any 32-bit numbers, so their sum is taken in 64.
fn bounds_fit(d: u32, u: u32, r: u32) -> bool
    ensures { result ≡ (leb r u && leb (2 * u + r + 1) d) }
{
    let least = 2 * u64::from(u) + u64::from(r) + 1;
    (r <= u) & (least <= u64::from(d))
}

// Whether a cluster is accepted, and the total share, counted round: of an accepted one that is the total itself.
#[derive(Clone, Copy)]
pub struct Judgement {
    pub outcome: Result<(), Refusal>,
    pub total: u32,
}

// A cluster as its operator lends it, accepted or not: the members' shares, member 0 first, and the bounds u and r, any numbers.
#[derive(Clone, Copy)]
pub struct LentCluster<'a> {
    pub shares: &'a [u32],
    pub u: u32,
    pub r: u32,
}

impl LentCluster<'_> {
    // The refusal that the cluster gets: 1, 2, 3 in this order; and the total, which judging finds anyway. It is told whatever the refusal,
    // so that nothing that uses it need wait for the judgement.
    #[tactic(auto, using(crate::proofs::ClusterLaws::judging))]
    pub fn judge(self) -> Judgement
        ensures { told result ≡ cluster_answer self.entry.shares.now self.entry.u self.entry.r }
    {
        if self.shares.len() < 1 || 64 < self.shares.len() {
            return Judgement {
                outcome: Err(Refusal::Members),
                total: 0,
            };
        }
        let all = weigh(self.shares);
        let total = all.total;
        let outcome = if 2_147_483_648 <= all.bits {
            Err(Refusal::Share)
        } else if !bounds_fit(total, self.u, self.r) {
            Err(Refusal::Bounds)
        } else {
            Ok(())
        };
        Judgement { outcome, total }
    }

    // The refusal alone.
    #[tactic(auto, using(crate::proofs::ClusterLaws::answer_refusal))]
    pub fn refusal(self) -> Result<(), Refusal>
        ensures { outcome_number result ≡ cluster_refusal self.entry.shares.now self.entry.u self.entry.r }
    {
        self.judge().outcome
    }
}
