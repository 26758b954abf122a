// Writing: kinds 0, 1 and 2, field by field into the first 24 places of the output.
ghost use Rattle.std.specs.Prelude.{◌≡◌, true, ◌++◌, ◌≤◌, length, drop};
ghost use Rattle.basics.specs.Refusals.{outcome_number};
ghost use Rattle.records.specs.ByKind.{fields_kept};
ghost use Rattle.records.specs.Writing.{head_of, bytes_of, write_refusal, written_of};

use basics::{Refusal, put_number};

// Writes the record with these fields, or says why not and changes nothing. A report is asked for first, since it may have any fields. The
// kind is a number, and no `Record`: with that refusals 14 and 15 could not be given.
#[tactic(auto, using(crate::proofs::WriteLaws::writes))]
pub fn write(kind: u8, member: u8, number: u64, mask: u64, out: &mut [u8]) -> Result<(), Refusal>
    ensures { (outcome_number result ≡ write_refusal kind member number mask (length out.old)) × (out.new ≡ written_of kind member number mask out.old) }
{
    if kind == 1 {
        return write_kept(kind, member, number, mask, out);
    }
    if 2 < kind {
        return Err(Refusal::WrongKind);
    }
    if !fields_kept(kind, member, number, mask) {
        return Err(Refusal::NotZero);
    }
    write_kept(kind, member, number, mask, out)
}

// Writes a record whose kind and fields may be written, if there is room.
#[tactic(auto, using(crate::proofs::WriteLaws::writes))]
fn write_kept(kind: u8, member: u8, number: u64, mask: u64, out: &mut [u8]) -> Result<(), Refusal>
    requires { (kind ≤ 2) × (fields_kept kind member number mask ≡ true) }
    ensures { (outcome_number result ≡ write_refusal kind member number mask (length out.old)) × (out.new ≡ written_of kind member number mask out.old) }
{
    if out.len() < 24 {
        return Err(Refusal::ShortOutput);
    }
    put_record(kind, member, number, mask, out);
    Ok(())
}

// An unused place has no fields, and an arrival no mask.
#[tactic(auto, using(crate::proofs::WriteLaws::fields_unused, crate::proofs::WriteLaws::fields_used))]
fn fields_kept(kind: u8, member: u8, number: u64, mask: u64) -> bool
    ensures { result ≡ fields_kept kind member number mask }
{
    if kind == 0 {
        return (member == 0) & (number == 0) & (mask == 0);
    }
    (kind != 2) | (mask == 0)
}

// The first 8 bytes: kind, member and six zeros, as one number.
#[tactic(auto, using(crate::proofs::WriteLaws::put_head))]
fn put_head(kind: u8, member: u8, head: &mut [u8])
    requires { length head.old ≡ 8 }
    ensures { head.new ≡ head_of kind member }
{
    put_number(head, u64::from(member) * 256 + u64::from(kind));
}

// The 24 bytes, part by part: the later bytes of the output stay as they were.
fn put_record(kind: u8, member: u8, number: u64, mask: u64, out: &mut [u8])
    requires { 24 ≤ length out.old }
    ensures { out.new ≡ bytes_of kind member number mask ++ drop 24 out.old }
{
    put_head(kind, member, &mut out[0..8]);
    put_number(&mut out[8..16], number);
    put_number(&mut out[16..24], mask);
}
