// A line's word and its numbers.
ghost use Rattle.std.specs.Prelude.{◌≡◌, ◌==◌, ◌≢◌, ◌<◌, ◌≤◌, min, length, take, slice_index, EachIndex, count_by};

// What a line says after its word: how many numbers, and the numbers themselves from place 1 on. The word stands at place 0.
#[derive(Clone, Copy)]
pub struct Numbers {
    pub count: usize,
    pub at: [u64; 100],
}

// A number after a digit, modulo 2^64; after any other byte it stays.
fn with_digit(x: u64, byte: u8) -> u64 {
    match byte {
        b'0'..=b'9' => x.wrapping_mul(10).wrapping_add(u64::from(byte - b'0')),
        _ => x,
    }
}

// The word that a line starts with, which a space ends.
pub fn word(line: &[u8]) -> &[u8]
    ensures front { result.now ≡ take (length result.now) line.now }
    ensures no_space { EachIndex result.now (λ k. slice_index result.now k ≢ 32) }
    ensures whole { length result.now < length line.now → slice_index line.now (length result.now) ≡ 32 }
{
    let end = line.iter().position(|b| *b == b' ').unwrap_or(line.len());
    &line[..end]
}

impl Numbers {
    // One after each space. Those that there is no place for are counted alone.
    pub fn of(line: &[u8]) -> Numbers
        ensures within { result.count ≤ length line.now }
        ensures count { result.count ≡ count_by (λ b. b == 32) line.now }
    {
        let mut at = [0; 100];
        for (number, field) in at.iter_mut().zip(line.split(|b| *b == b' ')) {
            *number = field.iter().fold(0, |x, byte| with_digit(x, *byte));
        }
        let count = line.iter().filter(|b| **b == b' ').count();
        Numbers { count, at }
    }
}

// A number as the call's parameter has it: one that is too large is the largest that fits.
pub fn short(x: u64) -> u32
    ensures { result ≡ min x 4294967295 }
{
    u32::try_from(x).unwrap_or(u32::MAX)
}

// The same for a byte: one function over both would need each type's largest number from its callers.
pub fn byte(x: u64) -> u8
    ensures { result ≡ min x 255 }
{
    u8::try_from(x).unwrap_or(u8::MAX)
}

// The number at a place, 0 past the last.
pub fn number_at(numbers: &[u64], i: usize) -> u64
    ensures { result ≡ slice_index numbers.now i }
{
    numbers.get(i).copied().unwrap_or(0)
}
