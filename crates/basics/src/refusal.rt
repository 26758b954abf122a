// Why a call is refused.
ghost use Rattle.std.specs.Prelude.{◌≡◌};
ghost use Rattle.basics.specs.Refusals.{number_of, outcome_number};

// The document's table, in its order: the first is number 1.
#[derive(Clone, Copy, Debug, PartialEq, Eq)]
pub enum Refusal {
    // 0 or more than 64 members.
    Members = 1,
    // A share is 0 or above 1,000,000.
    Share,
    // r above u, or D below 2u + r + 1.
    Bounds,
    // q is 0 or above 1,024.
    Quantum,
    // Output shorter than needed.
    ShortOutput,
    // Message number 0 or above its limit.
    Message,
    // Resend number 0 or above 255.
    Resend,
    // No such receiving member.
    NoMember,
    // k above p + 64.
    TooFar,
    // k is not S + 1.
    NotNext,
    // Report holds something above S.
    NotSent,
    // Mask bit 0 set.
    FirstBit,
    // Report lacks a message that the member's former report held.
    HeldBefore,
    // Kind reserved, or not writable.
    WrongKind,
    // A byte or field that must be zero is not.
    NotZero,
    // Record not 24 bytes long.
    WrongLength,
    // State or holdings not well formed.
    IllFormed,
    // Arrival above c + 64.
    TooEarly,
    // Plan program: input badly built.
    BadlyBuilt,
}

impl Refusal {
    // The document's number.
    pub fn number(self) -> u32
        ensures { result ≡ number_of self }
    {
        self as u32
    }
}

// The number of a call that answers nothing else: 0 where it is not refused.
pub fn outcome_number(outcome: Result<(), Refusal>) -> u32
    ensures { result ≡ outcome_number outcome }
{
    match outcome {
        Ok(()) => 0,
        Err(refusal) => refusal.number(),
    }
}
