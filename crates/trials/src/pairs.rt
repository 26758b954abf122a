// Calls on the sending and the receiving cluster: whether they are accepted, first pairs and resend pairs.
use script::say;
use script::sides::Sides;
use std::io;
use std::io::Write;

pub(crate) fn pair(to: &mut impl Write, sides: &Sides, q: u32) -> io::Result<()> {
    say::outcome(to, &sides.link(q).refusal())
}

pub(crate) fn first(to: &mut impl Write, sides: &Sides, q: u32, k: u64) -> io::Result<()> {
    let a = sides.link(q).first_pair(k);
    say::outcome(to, &a)?;
    let pair = a.unwrap_or_default();
    write!(to, " {} {}", pair.sender, pair.receiver)
}

pub(crate) fn resend(
    to: &mut impl Write,
    sides: &Sides,
    q: u32,
    k: u64,
    number: u32,
) -> io::Result<()> {
    let a = resend::resend_pair(sides.link(q), k, number);
    say::outcome(to, &a)?;
    let resend = a.unwrap_or_default();
    write!(to, " {} {} {}", resend.sender, resend.receiver, resend.run)
}
