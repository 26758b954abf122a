// A position on the circle.
use circle::{Place, Position};
use script::input::{Numbers, short};
use script::say;
use std::io;
use std::io::Write;

fn place(member: u64, left: u64) -> Place {
    Place {
        member: short(member),
        left,
    }
}

pub(crate) fn resend_from(to: &mut impl Write, args: &Numbers) -> io::Result<()> {
    let sender = place(args.at[1], args.at[2]);
    let receiver = place(args.at[3], args.at[4]);
    let a = circle::resend_from(Position { sender, receiver });
    say::answer(to, u64::from(a.sender))?;
    write!(to, " {} {}", a.receiver, a.run)
}
