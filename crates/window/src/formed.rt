// Whether a state is well formed, for any values.
ghost use Rattle.std.specs.Prelude.{◌≡◌};
ghost use Rattle.window.specs.Formed.{well_formed};

use crate::state::Window;

impl Window {
    // Whether the state is well formed.
    pub fn well_formed(self) -> bool
        ensures { result ≡ well_formed self }
    {
        let sending = downstream::cluster_kept(self.sending);
        let quantum = basics::is_quantum(self.quantum);
        let downstream = downstream::downstream_kept(self.downstream, self.sent);
        sending & quantum & downstream
    }
}
