// A 64-bit mask as a set of bits.
ghost use Rattle.std.specs.Prelude.{◌≡◌, ◌/◌, ◌^◌, ◌≤◌};
ghost use Rattle.marks.specs.Masks.{is_marked, mark_of, unmark_of, run_of, reach_of, is_subset, first_of, among_of};

// Whether bit b is marked.
#[tactic(auto, using(crate::proofs::MaskLaws::marked_out), unfolding(crate::specs::Masks::is_marked))]
pub fn is_marked(mask: u64, b: u64) -> bool
    ensures { result ≡ is_marked mask b }
{
    if b < 64 { (mask >> b) % 2 == 1 } else { false }
}

// The mask with bit b marked as well.
#[tactic(auto, using(crate::proofs::MaskLaws::mark_in, crate::proofs::MaskLaws::mark_out))]
pub fn mark(mask: u64, b: u64) -> u64
    ensures { result ≡ mark_of mask b }
{
    if b < 64 { mask | (1u64 << b) } else { mask }
}

// The mask with bit b not marked.
#[tactic(auto, using(crate::proofs::MaskLaws::unmark_in, crate::proofs::MaskLaws::unmark_out))]
pub fn unmark(mask: u64, b: u64) -> u64
    ensures { result ≡ unmark_of mask b }
{
    if b < 64 { mask & !(1u64 << b) } else { mask }
}

// How many bits are marked from bit 0 up to the first that is not: 64 where all are.
#[tactic(auto, using(crate::proofs::RunLaws::run_told, crate::proofs::RunLaws::run_small))]
pub fn run(mask: u64) -> u32
    ensures { (result ≡ run_of mask) × (result ≤ 64) }
{
    mask.trailing_ones()
}

// The mask moved down by d bits: past all 64 there is nothing left, and no shift is made.
#[tactic(auto, using(crate::proofs::MaskLaws::past_all))]
pub fn past(mask: u64, d: u64) -> u64
    ensures { result ≡ mask / 2 ^ d }
{
    if d < 64 { mask >> d } else { 0 }
}

// How many bits there are up to the highest marked one: 0 where none is.
#[tactic(auto, using(crate::proofs::RunLaws::reach_told))]
pub fn reach(mask: u64) -> u64
    ensures { (result ≡ reach_of mask) × (result ≤ 64) }
{
    u64::from(64 - mask.leading_zeros())
}

// Whether every bit that is marked in a is marked in b.
#[tactic(auto, using(crate::proofs::SetLaws::subset_told))]
pub fn is_subset(a: u64, b: u64) -> bool
    ensures { result ≡ is_subset a b }
{
    a & !b == 0
}

// The first d of 64 bits: all of them where d is 64 or more, and no shift is made.
#[tactic(auto, using(crate::proofs::MaskLaws::one_up, crate::proofs::FirstLaws::first_some, crate::proofs::FirstLaws::first_all))]
pub(crate) fn first(d: u64) -> u64
    ensures { result ≡ first_of d }
{
    if d < 64 { (1u64 << d) - 1 } else { u64::MAX }
}

// The bits of a mask from one place up to, and without, another.
#[tactic(auto, using(crate::proofs::FirstLaws::among_told))]
pub fn among(mask: u64, from: u64, to: u64) -> u64
    ensures { result ≡ among_of mask from to }
{
    mask & first(to) & !first(from)
}
