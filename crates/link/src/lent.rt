// What a caller lends, made from the plain numbers of a call.
ghost use Rattle.std.specs.Prelude.{◌≡◌};

use deal::Link;
use shares::LentCluster;

pub(crate) fn link_of<'a>(
    ss: &'a [u32],
    su: u32,
    sr: u32,
    rs: &'a [u32],
    ru: u32,
    rr: u32,
    quantum: u32,
) -> Link<'a>
    ensures sending { (result.sending.shares.now ≡ ss.now) × (result.sending.u ≡ su) × (result.sending.r ≡ sr) }
    ensures receiving { (result.receiving.shares.now ≡ rs.now) × (result.receiving.u ≡ ru) × (result.receiving.r ≡ rr) }
    ensures quantum { result.quantum ≡ quantum }
{
    Link {
        sending: LentCluster {
            shares: ss,
            u: su,
            r: sr,
        },
        receiving: LentCluster {
            shares: rs,
            u: ru,
            r: rr,
        },
        quantum,
    }
}
