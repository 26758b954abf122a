// Sums and differences that cannot wrap, and the ranges of document 01. The library has the first three under its own names: they stay as
// public calls with theorems of their own. Each range has a function by the document's name for it: one over a type and a limit would be no
// plainer, and take the limit from every caller.
ghost use Rattle.std.specs.Prelude.{◌≡◌, ◌-◌, ◌<◌, min};
ghost use Rattle.basics.specs.Ranges.{is_message, is_quantum, is_resend};

// The same number with more room above it.
pub fn wide(x: u32) -> u64
    ensures { (result ≡ x) × (result < 4294967296) }
{
    u64::from(x)
}

// What is left of a after b, 0 where b is the larger.
pub fn less(a: u64, b: u64) -> u64
    ensures { result ≡ a - b }
{
    a.saturating_sub(b)
}

pub fn least(a: u64, b: u64) -> u64
    ensures { result ≡ min a b }
{
    a.min(b)
}

#[tactic(auto, unfolding(crate::specs::Ranges::is_message))]
pub fn is_message(k: u64) -> bool
    ensures { result ≡ is_message k }
{
    (1 <= k) & (k <= 1_000_000_000_000)
}

#[tactic(auto, unfolding(crate::specs::Ranges::is_quantum))]
pub fn is_quantum(q: u32) -> bool
    ensures { result ≡ is_quantum q }
{
    (1 <= q) & (q <= 1_024)
}

#[tactic(auto, unfolding(crate::specs::Ranges::is_resend))]
pub fn is_resend(n: u32) -> bool
    ensures { result ≡ is_resend n }
{
    (1 <= n) & (n <= 255)
}
