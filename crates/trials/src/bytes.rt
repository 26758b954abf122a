// Calls that take a line's numbers as bytes, and calls that fill an output.
use script::input::{Numbers, byte};
use script::say;
use std::io;
use std::io::Write;

// Puts a line's numbers into a space as bytes, and lends them: none where they are more than there is space for.
pub(crate) fn put<'a>(args: &Numbers, space: &'a mut [u8; 100]) -> &'a [u8] {
    for (place, number) in space.iter_mut().zip(&args.at[1..]) {
        *place = byte(*number);
    }
    space.get(..args.count).unwrap_or(&[])
}

pub(crate) fn all_zero(to: &mut impl Write, args: &Numbers) -> io::Result<()> {
    let mut space = [0; 100];
    say::truth(to, basics::all_zero(put(args, &mut space)))
}

pub(crate) fn put_number(to: &mut impl Write, x: u64, room: usize) -> io::Result<()> {
    let mut space = [7; 100];
    let out = space.get_mut(..room).unwrap_or(&mut []);
    basics::put_number(out, x);
    to.write_all(b":")?;
    say::list(to, out)
}
