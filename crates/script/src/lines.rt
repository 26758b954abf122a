// The lines of the input.
use std::io;
use std::io::Write;

// Writes each line back and what `run` says to it after it, and stops at one that fails.
pub fn run_each<W: Write, F: FnMut(&mut W, &[u8]) -> io::Result<()>>(
    to: &mut W,
    cases: &[u8],
    mut run: F,
) -> io::Result<()>
    requires { F.IsAlwaysCallable run }
    ensures { Unit {0} }
{
    for ended in cases.split_inclusive(|b| *b == b'\n') {
        let line = ended.strip_suffix(b"\n").unwrap_or(ended);
        to.write_all(line)?;
        run(to, line)?;
        to.write_all(b"\n")?;
    }
    Ok(())
}
