// Calls on the window.
use script::input::{Numbers, short};
use script::sides::Sides;
use script::{outputs, say};
use std::io;
use std::io::Write;
use window::Window;

pub(crate) fn open(to: &mut impl Write, sides: &Sides, q: u32) -> io::Result<Window> {
    let a = Window::open(sides.link(q));
    say::outcome(to, &a.outcome)?;
    Ok(a.window)
}

// What a call made of the state: S, p, and whether anything changed.
fn say_step(to: &mut impl Write, before: &Window, after: &Window) -> io::Result<()> {
    write!(to, " sent {} point {}", after.sent, after.downstream.point)?;
    to.write_all(if before == after {
        b" same"
    } else {
        b" changed"
    })
}

pub(crate) fn send(to: &mut impl Write, w: &mut Window, k: u64) -> io::Result<()> {
    let before = *w;
    let a = before.send(k);
    *w = a.window;
    say::outcome(to, &a.outcome)?;
    say_step(to, &before, w)
}

// The bytes that were written, and how many were left. A verdict ends in zeros, so none is missed.
fn say_output(to: &mut impl Write, out: &[u8]) -> io::Result<()> {
    to.write_all(b" wrote")?;
    say::list(to, &out[..outputs::written(out)])?;
    outputs::say_kept(to, out)
}

pub(crate) fn report(to: &mut impl Write, w: &mut Window, args: &Numbers) -> io::Result<()> {
    let mut space = [7; 1100];
    let out = space.get_mut(..args.at[4] as usize).unwrap_or(&mut []);
    let before = *w;
    let a = before.report(short(args.at[1]), args.at[2], args.at[3], out);
    *w = a.window;
    say::outcome(to, &a.outcome)?;
    write!(to, " {}", a.outcome.unwrap_or(0))?;
    say_step(to, &before, w)?;
    say_output(to, out)
}
