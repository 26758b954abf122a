// The plan program's call.
use script::groups::Unit;
use script::input::Numbers;
use script::{groups, outputs, say};
use std::io;
use std::io::Write;

// A text's lines on one line, a slash for the end of each.
fn slash_lines(text: &mut [u8]) {
    for byte in text.iter_mut() {
        if *byte == b'\n' {
            *byte = b'/';
        }
    }
}

// The text of an input that the groups fill, which may have more bytes than an input may.
pub(crate) fn plan(to: &mut impl Write, args: &Numbers, unit: Unit) -> io::Result<()> {
    let mut bytes = [0; 4200];
    let filled = groups::fill(unit, &args.at[1..], &mut bytes);
    let mut text = [7; planner::ROOM];
    let end = planner::plan(&bytes[..filled], &mut text);
    say::answer(to, end as u64)?;
    slash_lines(&mut text);
    to.write_all(b" ")?;
    to.write_all(text.get(..end).unwrap_or(&[]))?;
    outputs::say_kept(to, &text)
}
