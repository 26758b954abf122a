// An input, read into a space of fixed size.
#![tactic(auto)]

ghost use Rattle.std.specs.Prelude.{◌≡◌, length, IfOk};
ghost use Rattle.reading.specs.Counts.{IsPrefixLen};

use std::io;
use std::io::Read;

// Reads until the space is full or the input ends, and answers how many bytes it put at the start of the space. Where a read fails, what was
// read before it stands there.
pub fn read_full(from: &mut impl Read, space: &mut [u8]) -> io::Result<usize>
    ensures count { IfOk result (λ n. IsPrefixLen n space.new) }
    ensures same_length { length space.new ≡ length space.old }
{
    let mut done = 0;
    // A read puts as many bytes as it likes, so the place is no counter.
    while done < space.len() {
        let n = from.read(&mut space[done..])?;
        if n == 0 {
            break;
        }
        done += n;
    }
    Ok(done)
}
