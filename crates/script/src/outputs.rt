// An output of bytes that were each 7 before a call.
ghost use Rattle.reading.specs.Counts.{IsPrefixLen};

use std::io;
use std::io::Write;

// How many of its bytes come before those at its end that are 7 still.
pub fn written(out: &[u8]) -> usize
    ensures { IsPrefixLen result out.now }
{
    out.iter().rposition(|b| *b != 7).map_or(0, |last| last + 1)
}

// How many bytes at its end were left alone.
pub fn say_kept(to: &mut impl Write, out: &[u8]) -> io::Result<()>
    ensures { Unit {0} }
{
    write!(to, " kept {}", out.len() - written(out))
}
