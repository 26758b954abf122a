// Link records: reading and writing.
use crate::bytes;
use records::Record;
use script::input::{Numbers, byte};
use script::say;
use std::io;
use std::io::Write;

fn say_record(to: &mut impl Write, record: Record) -> io::Result<()> {
    match record {
        Record::Unused => write!(to, ": unused"),
        Record::Report {
            member,
            number,
            mask,
        } => write!(to, ": report {member} {number} {mask}"),
        Record::Arrival { member, number } => write!(to, ": arrival {member} {number}"),
        Record::Private { kind } => write!(to, ": private {kind}"),
    }
}

pub(crate) fn read(to: &mut impl Write, args: &Numbers) -> io::Result<()> {
    let mut space = [0; 100];
    let answer = records::read(bytes::put(args, &mut space));
    match answer {
        Ok(record) => say_record(to, record),
        Err(_) => say::outcome(to, &answer),
    }
}

pub(crate) fn write(to: &mut impl Write, args: &Numbers) -> io::Result<()> {
    let mut space = [7; 100];
    let out = space.get_mut(..args.at[5] as usize).unwrap_or(&mut []);
    let (kind, member) = (byte(args.at[1]), byte(args.at[2]));
    let answer = records::write(kind, member, args.at[3], args.at[4], out);
    say::outcome(to, &answer)?;
    say::list(to, out)
}
