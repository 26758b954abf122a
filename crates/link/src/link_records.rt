// Link records read and written.
ghost use Rattle.std.specs.Prelude.{◌≡◌, Ok, length};
ghost use Rattle.records.specs.Answers.{told};
ghost use Rattle.records.specs.Reading.{read_of};
ghost use Rattle.records.specs.Writing.{write_refusal, written_of};
ghost use Rattle.link.specs.Numbers.{told_numbers};

use records::Record;

fn put_record(x: Record, answer: &mut [u64; 4])
    ensures { answer.new ≡ told_numbers (told (Ok x)) }
{
    match x {
        Record::Unused => *answer = [0, 0, 0, 0],
        Record::Report {
            member,
            number,
            mask,
        } => *answer = [1, u64::from(member), number, mask],
        Record::Arrival { member, number } => *answer = [2, u64::from(member), number, 0],
        Record::Private { kind } => *answer = [u64::from(kind), 0, 0, 0],
    }
}

// The kind, member, number and mask of the record in these bytes.
#[unsafe(no_mangle)]
pub extern "C" fn havdorlek_read(bytes: &[u8], answer: &mut [u64; 4]) -> u32
    ensures { (result ≡ (read_of bytes.now).refusal) × (answer.new ≡ told_numbers (read_of bytes.now)) }
{
    match records::read(bytes) {
        Ok(record) => {
            put_record(record, answer);
            0
        }
        Err(refusal) => {
            *answer = [0, 0, 0, 0];
            refusal.number()
        }
    }
}

// Writes a record into the output's first bytes.
#[unsafe(no_mangle)]
pub extern "C" fn havdorlek_write(
    kind: u8,
    member: u8,
    number: u64,
    mask: u64,
    out: &mut [u8],
) -> u32
    ensures { (result ≡ write_refusal kind member number mask (length out.old)) × (out.new ≡ written_of kind member number mask out.old) }
{
    basics::outcome_number(records::write(kind, member, number, mask, out))
}
