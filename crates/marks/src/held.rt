// What a cumulative number c and a mask say is held.
ghost use Rattle.std.specs.Prelude.{◌≡◌, ◌≤◌};
ghost use Rattle.marks.specs.Held.{holds_of, highest_of, none_above, held_after};

use crate::masks::{first, is_marked, past, reach};

// Whether message k is held: at most c, or marked.
#[tactic(auto, using(crate::proofs::HeldLaws::holds_at_most, crate::proofs::HeldLaws::holds_marked))]
pub fn holds(c: u64, mask: u64, k: u64) -> bool
    ensures { result ≡ holds_of c mask k }
{
    if k <= c {
        return true;
    }
    is_marked(mask, k - c - 1)
}

// The highest message held.
// inner: near the end of 64 bits c and the mask's reach have no sum.
#[tactic(auto, unfolding(crate::specs::Held::highest_of))]
pub fn highest(c: u64, mask: u64) -> u64
    requires { c ≤ 1000000000000 }
    ensures { result ≡ highest_of c mask }
{
    c + reach(mask)
}

// Whether nothing above s is held.
#[tactic(auto, using(crate::proofs::HeldLaws::above_at_once, crate::proofs::HeldLaws::above_by_past))]
pub fn none_above(c: u64, mask: u64, s: u64) -> bool
    ensures { result ≡ none_above c mask s }
{
    if s < c {
        return false;
    }
    past(mask, s - c) == 0
}

// What is held of the 64 messages after p: bit o speaks of message p + 1 + o. No shift is made where c is 64 or more past p.
#[tactic(auto, using(crate::proofs::AfterLaws::after_before, crate::proofs::AfterLaws::after_all_lem, crate::proofs::AfterLaws::after_among))]
pub fn held_after(p: u64, c: u64, mask: u64) -> u64
    ensures { result ≡ held_after p c mask }
{
    if c < p {
        return past(mask, p - c);
    }
    let d = c - p;
    if 64 <= d {
        return first(d);
    }
    (mask << d) | first(d)
}
