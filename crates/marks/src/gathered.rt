// The bits of many words, gathered in one: what is gathered tells of all of them at once, and no word is branched on.
ghost use Rattle.std.specs.Prelude.{◌≡◌};
ghost use Rattle.marks.specs.Gathered.{any_of};

// The bits that are set in any of the words: none where all are 0.
#[tactic(auto, using(crate::proofs::GatheredLaws::any_start, crate::proofs::GatheredLaws::any_turn, crate::proofs::GatheredLaws::any_done))]
pub fn any_of(sets: &[u64]) -> u64
    ensures { result ≡ any_of sets.now }
{
    let mut any: u64 = 0;
    for set in sets {
        any |= *set;
    }
    any
}
