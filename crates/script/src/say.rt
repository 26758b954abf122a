// What a case's line says after the case. The contracts say nothing of what is written: the stored lines do.
use basics::Refusal;
use std::fmt::Display;
use std::io;
use std::io::Write;

// What a call answered first.
pub fn answer(to: &mut impl Write, n: u64) -> io::Result<()>
    ensures { Unit {0} }
{
    write!(to, ": {n}")
}

// The same where the call may be refused: the refusal's number, 0 for none.
pub fn outcome<T>(to: &mut impl Write, outcome: &Result<T, Refusal>) -> io::Result<()>
    ensures { Unit {0} }
{
    match outcome {
        Ok(_) => answer(to, 0),
        Err(refusal) => answer(to, u64::from(refusal.number())),
    }
}

// The same where it is yes, 1, or no, 0.
pub fn truth(to: &mut impl Write, is_so: bool) -> io::Result<()>
    ensures { Unit {0} }
{
    answer(to, u64::from(is_so))
}

// Values of any kind, each after a space.
pub fn list<T: Display>(to: &mut impl Write, values: &[T]) -> io::Result<()>
    ensures { Unit {0} }
{
    for value in values {
        write!(to, " {value}")?;
    }
    Ok(())
}
