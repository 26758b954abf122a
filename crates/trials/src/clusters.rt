// Calls on one cluster: its acceptance and its counts.
use script::say;
use script::sides::Side;
use std::io;
use std::io::Write;

pub(crate) fn cluster(to: &mut impl Write, s: &Side) -> io::Result<()> {
    say::outcome(to, &s.lent().refusal())
}

pub(crate) fn counts(to: &mut impl Write, s: &Side, q: u32, room: usize) -> io::Result<()> {
    let mut places = [7; 100];
    let out = places.get_mut(..room).unwrap_or(&mut []);
    say::outcome(to, &hamilton::counts(s.lent(), q, out))?;
    say::list(to, out)
}
