// The point that members' values reach by share.
ghost use Rattle.std.specs.Prelude.{◌≡◌, cond, ◌&&◌, ◌≤◌, leb, ltb, eqb, length};
ghost use Rattle.shares.specs.Point.{reached_of, point_of};

use crate::totals::{share_where, total};

// The share of the members whose value is at least g. Those that have one are gone through first: none of them is asked whether it has.
// The others have 0.
fn reached(shares: &[u32], values: &[u64], g: u64) -> u64
    requires { length shares.now ≤ 64 }
    ensures { result ≡ reached_of shares.now values.now g }
{
    let valued = shares.len().min(values.len());
    let with_value = share_where(&shares[..valued], |i| g <= values[i]);
    let with_none = if g == 0 { total(&shares[valued..]) } else { 0 };
    with_value + with_none
}

// The better of the best point so far and a value v.
#[tactic(auto, using(crate::proofs::PointLaws::not_better, crate::proofs::PointLaws::better_reached, crate::proofs::PointLaws::better_not_reached))]
fn better(shares: &[u32], values: &[u64], t: u64, v: u64, best: u64) -> u64
    requires { length shares.now ≤ 64 }
    ensures { result ≡ cond (ltb best v && leb t (reached_of shares.now values.now v)) v best }
{
    if v <= best {
        return best;
    }
    if t <= reached(shares, values, v) {
        v
    } else {
        best
    }
}

// The largest g such that members whose value is at least g have share t or more, or 0. Only a member's value can be the largest.
// inner: as for the total.
pub fn point(shares: &[u32], values: &[u64], t: u64) -> u64
    requires { length shares.now ≤ 64 }
    ensures { result ≡ point_of shares.now values.now t }
{
    let valued = shares.len().min(values.len());
    let mut best: u64 = 0;
    for v in &values[..valued] {
        best = better(shares, values, t, *v, best);
    }
    best
}

// Whether p is that point: it is reached, or is 0, and the next number is not. Two passes, where finding it may take one for each value.
// inner: as for the total; and a threshold of 0 would have no largest number.
#[tactic(auto, using(crate::proofs::PointLaws::point_told))]
pub fn is_point(shares: &[u32], values: &[u64], t: u64, p: u64) -> bool
    requires { (length shares.now ≤ 64) × (1 ≤ t) × (p ≤ 1000000000000) }
    ensures { result ≡ eqb p (point_of shares.now values.now t) }
{
    let here = reached(shares, values, p);
    let next = reached(shares, values, p + 1);
    ((p == 0) | (t <= here)) & (next < t)
}
