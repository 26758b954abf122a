// The plan program's input, which a case gives in groups of numbers: how often, and what. Records and bytes in long rows then
// need few numbers.
ghost use Rattle.std.specs.Prelude.{◌<◌, ◌≤◌, length};

use crate::input;
use crate::input::number_at;

// What a group of numbers asks for: how often, and a byte; or how often, and a record's kind and its two numbers.
#[derive(Clone, Copy)]
pub enum Unit {
    Byte,
    Record,
}

// The lowest four bytes of a number, the lowest first.
fn low_bytes(x: u64) -> [u8; 4] {
    let [a, b, c, d, ..] = x.to_le_bytes();
    [a, b, c, d]
}

// A record: kind, three zeros, and two numbers.
fn record(group: &[u64]) -> [u8; 12] {
    let kind = input::byte(number_at(group, 1));
    let [a, b, c, d] = low_bytes(number_at(group, 2));
    let [e, f, g, h] = low_bytes(number_at(group, 3));
    [kind, 0, 0, 0, a, b, c, d, e, f, g, h]
}

impl Unit {
    // How many numbers a group has.
    fn width(self) -> usize
        ensures { (0 < result) × (result ≤ 4) }
    {
        match self {
            Unit::Byte => 2,
            Unit::Record => 4,
        }
    }

    // How many bytes of the input a group gives.
    fn length(self, group: &[u64]) -> usize {
        let often = number_at(group, 0) as usize;
        match self {
            Unit::Byte => often,
            Unit::Record => often.saturating_mul(12),
        }
    }

    // The bytes that a group gives again and again: a record's, or one byte's twelve times.
    fn bytes(self, group: &[u64]) -> [u8; 12] {
        match self {
            Unit::Byte => [input::byte(number_at(group, 1)); 12],
            Unit::Record => record(group),
        }
    }
}

// Fills the input from the groups, and answers how many bytes it has.
pub fn fill(unit: Unit, groups: &[u64], bytes: &mut [u8]) -> usize
    ensures { result ≤ length bytes.old }
{
    let mut done: usize = 0;
    for group in groups.chunks(unit.width()) {
        let end = bytes.len().min(done.saturating_add(unit.length(group)));
        let given = unit.bytes(group);
        for (i, byte) in bytes[done..end].iter_mut().enumerate() {
            *byte = given[i % 12];
        }
        done = end;
    }
    done
}
