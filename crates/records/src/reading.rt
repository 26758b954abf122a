// Reading: the kind byte decides which bytes must be zero and which are fields.
ghost use Rattle.std.specs.Prelude.{◌≡◌, true, length, get_or};
ghost use Rattle.records.specs.Answers.{told, is_proper};
ghost use Rattle.records.specs.Reading.{read_of};

use crate::Record;
use basics::{Refusal, all_zero, number};

// The record in these bytes, or why there is none.
#[tactic(auto, using(crate::proofs::ReadLaws::reads))]
pub fn read(bytes: &[u8]) -> Result<Record, Refusal>
    ensures { (told result ≡ read_of bytes.now) × (is_proper result ≡ true) }
{
    if bytes.len() != 24 {
        return Err(Refusal::WrongLength);
    }
    let kind = bytes[0];
    match kind {
        0 => read_unused(bytes),
        1 => read_report(bytes),
        2 => read_arrival(bytes),
        3..=127 => Err(Refusal::WrongKind),
        128..=255 => Ok(Record::Private { kind }),
    }
}

#[tactic(auto, using(crate::proofs::ReadLaws::reads))]
fn read_unused(bytes: &[u8]) -> Result<Record, Refusal>
    requires { (length bytes.now ≡ 24) × (get_or bytes.now 0 0 ≡ 0) }
    ensures { (told result ≡ read_of bytes.now) × (is_proper result ≡ true) }
{
    if all_zero(&bytes[1..24]) {
        Ok(Record::Unused)
    } else {
        Err(Refusal::NotZero)
    }
}

#[tactic(auto, using(crate::proofs::ReadLaws::reads))]
fn read_report(bytes: &[u8]) -> Result<Record, Refusal>
    requires { (length bytes.now ≡ 24) × (get_or bytes.now 0 0 ≡ 1) }
    ensures { (told result ≡ read_of bytes.now) × (is_proper result ≡ true) }
{
    if all_zero(&bytes[2..8]) {
        let n = number(&bytes[8..16]);
        let w = number(&bytes[16..24]);
        Ok(Record::Report {
            member: bytes[1],
            number: n,
            mask: w,
        })
    } else {
        Err(Refusal::NotZero)
    }
}

#[tactic(auto, using(crate::proofs::ReadLaws::reads))]
fn read_arrival(bytes: &[u8]) -> Result<Record, Refusal>
    requires { (length bytes.now ≡ 24) × (get_or bytes.now 0 0 ≡ 2) }
    ensures { (told result ≡ read_of bytes.now) × (is_proper result ≡ true) }
{
    if all_zero(&bytes[2..8]) & all_zero(&bytes[16..24]) {
        let n = number(&bytes[8..16]);
        Ok(Record::Arrival {
            member: bytes[1],
            number: n,
        })
    } else {
        Err(Refusal::NotZero)
    }
}
