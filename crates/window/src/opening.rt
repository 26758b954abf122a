// Opening a window.
ghost use Rattle.std.specs.Prelude.{◌≡◌, ◌++◌, ◌-◌, ◌≤◌, length, replicate};
ghost use Rattle.window.specs.Opening.{cluster_from, window_from, no_cluster, no_window, open_of, told};

use crate::state::Window;
use basics::Refusal;
use deal::Link;
use downstream::{Cluster, Downstream, Entry, Report};
use shares::LentCluster;

// Whether the opening is accepted, and the state: of zeros where it is refused, as document 01 hands it back, so that no `Result` of the
// state would do.
#[derive(Clone, Copy)]
pub struct OpenAnswer {
    pub outcome: Result<(), Refusal>,
    pub window: Window,
}

// The lent shares in 64 places, those past their end zero.
fn places(shares: &[u32]) -> [u32; 64]
    requires { length shares.now ≤ 64 }
    ensures { result ≡ shares.now ++ replicate (64 - length shares.now) 0 }
{
    let mut places = [0; 64];
    places[..shares.len()].copy_from_slice(shares);
    places
}

// A cluster as the state keeps it.
fn cluster_from(lent: LentCluster) -> Cluster
    requires { length lent.shares.now ≤ 64 }
    ensures { result ≡ cluster_from lent.entry.shares.now lent.entry.u lent.entry.r }
{
    Cluster {
        members: lent.shares.len() as u32,
        u: lent.u,
        r: lent.r,
        shares: places(lent.shares),
    }
}

// A state with nothing sent and nothing reported.
fn window_from(sending: Cluster, receiving: Cluster, quantum: u32) -> Window
    ensures { result ≡ window_from sending receiving quantum }
{
    let downstream = Downstream {
        cluster: receiving,
        point: 0,
        reports: [Report::default(); 64],
        entries: [Entry::default(); 64],
    };
    Window {
        sending,
        quantum,
        sent: 0,
        downstream,
    }
}

// The clusters of a state of zeros, written out under the definition's name.
fn no_cluster() -> Cluster
    ensures { result ≡ no_cluster }
{
    Cluster {
        members: 0,
        u: 0,
        r: 0,
        shares: [0; 64],
    }
}

fn no_window() -> Window
    ensures { result ≡ no_window }
{
    let none = no_cluster();
    window_from(none, none, 0)
}

impl Window {
    // Opens a window between two lent clusters.
    pub fn open(link: Link) -> OpenAnswer
        ensures { told result ≡ open_of link.entry.sending.shares.now link.entry.sending.u link.entry.sending.r link.entry.receiving.shares.now link.entry.receiving.u link.entry.receiving.r link.entry.quantum }
    {
        match link.refusal() {
            Err(refusal) => OpenAnswer {
                outcome: Err(refusal),
                window: no_window(),
            },
            Ok(()) => {
                let sending = cluster_from(link.sending);
                let receiving = cluster_from(link.receiving);
                let window = window_from(sending, receiving, link.quantum);
                OpenAnswer {
                    outcome: Ok(()),
                    window,
                }
            }
        }
    }
}
