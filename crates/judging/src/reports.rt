// A member's report beside its former one.
ghost use Rattle.std.specs.Prelude.{◌≡◌};
ghost use Rattle.judging.specs.Reports.{keeps_all};

use downstream::Report;

// Whether nothing is lacking that the former report held. What it marked is seen from the new number: moved down by as much.
pub fn keeps_all(former: Report, c: u64, mask: u64) -> bool
    ensures { result ≡ keeps_all former c mask }
{
    if c < former.number {
        return false;
    }
    let marked = marks::past(former.mask, c - former.number);
    marks::is_subset(marked, mask)
}
