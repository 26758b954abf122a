// The divisor of two totals, and their multiple.
ghost use Rattle.std.specs.Prelude.{◌≡◌, ◌≤◌};
ghost use Rattle.circle.specs.Divisor.{divisor_of, multiple_of};

// Euclid's rule, each step on a smaller remainder.
pub fn divisor(a: u64, b: u64) -> u64
    ensures { result ≡ divisor_of a b }
{
    if b == 0 { a } else { divisor(b, a % b) }
}

// The least common multiple.
// inner: for the totals of accepted clusters the product fits 64 bits; for others it may not.
pub fn multiple(a: u64, b: u64) -> u64
    requires { (1 ≤ a) × (a ≤ 64000000) × (b ≤ 64000000) }
    ensures { result ≡ multiple_of a b }
{
    a / divisor(a, b) * b
}
