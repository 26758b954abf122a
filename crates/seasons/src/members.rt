// Calls of the receiving member.
use basics::Refusal;
use holdings::Holdings;
use script::input::Numbers;
use script::say;
use std::io;
use std::io::Write;

fn say_holdings<T>(
    to: &mut impl Write,
    outcome: &Result<T, Refusal>,
    h: &Holdings,
) -> io::Result<()> {
    say::outcome(to, outcome)?;
    write!(to, " {} {}", h.number, h.mask)
}

pub(crate) fn arrive(to: &mut impl Write, h: &mut Holdings, k: u64) -> io::Result<()> {
    let next = holdings::arrive(*h, k);
    *h = next.unwrap_or(*h);
    say_holdings(to, &next, h)
}

pub(crate) fn arrive_at(to: &mut impl Write, h: &mut Holdings, k: u64) -> io::Result<()> {
    let outcome = holdings::arrive_at(h, k);
    say_holdings(to, &outcome, h)
}

pub(crate) fn tell(to: &mut impl Write, h: Holdings) -> io::Result<()> {
    let report = holdings::report(h);
    say_holdings(to, &report, &report.unwrap_or_default())
}

pub(crate) fn hold(args: &Numbers) -> Holdings {
    Holdings {
        number: args.at[1],
        mask: args.at[2],
    }
}
