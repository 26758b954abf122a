// Link records of 24 bytes, read and written: any bytes at all are read, and what is written reads back.
#![tactic(auto)]

mod reading;
mod writing;

pub use reading::read;
pub use writing::write;

// What a record says. Of a private one its kind alone: its contents are not read.
#[derive(Clone, Copy)]
pub enum Record {
    Unused,
    Report { member: u8, number: u64, mask: u64 },
    Arrival { member: u8, number: u64 },
    Private { kind: u8 },
}
