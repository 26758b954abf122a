// The words that a case may start with. Behind each stands what its numbers are and what is written after the colon.
use script::input::word;

#[derive(Clone, Copy)]
pub(crate) enum Word {
    // u r shares: the cluster that the next cases get as the sending one, and no answer.
    Sending,
    // The same of the receiving one.
    Receiving,
    // u r shares: the refusal.
    Cluster,
    // q room, of the sending cluster: the refusal and all places of the output, each 7 before.
    Counts,
    // q: the refusal.
    Pair,
    // q k: the refusal, the sender and the receiver.
    First,
    // q k number: the refusal, the sender, the receiver and the run.
    Resend,
    // bytes: the record, or the refusal.
    Read,
    // kind member number mask room: the refusal and all bytes of the output, each 7 before.
    Write,
    // (often kind first second)..: how many bytes the text has, the text, and how many bytes of the output, each 7 before, were left.
    Plan,
    // (often byte)..: the same of an input of any bytes.
    PlanBytes,
    // x: the same number.
    Wide,
    // a b: what is left of a after b.
    Less,
    // a b: the smaller.
    Least,
    // k: whether it is in its range.
    IsMessage,
    // q: whether it is in its range.
    IsQuantum,
    // n: whether it is in its range.
    IsResend,
    // x room: all bytes of the output, each 7 before.
    PutNumber,
    // bytes: whether they are.
    AllZero,
    // mask b: whether it is so.
    IsMarked,
    // mask b: the mask after it.
    Mark,
    // mask b: the mask after it.
    Unmark,
    // mask: how many bits.
    Run,
    // mask d: the mask after it.
    Past,
    // mask: how many bits.
    Reach,
    // a b: whether it is so.
    IsSubset,
    // c mask k: whether it is so.
    Holds,
    // c mask s: whether it is so.
    NoneAbove,
    // a b: the greatest common one.
    Divisor,
    // sender left receiver left: the sender, the receiver and the run of the resend that starts there.
    ResendFrom,
}

// The word that a line starts with; none where the line is a remark.
pub(crate) fn word_of(line: &[u8]) -> Option<Word> {
    match word(line) {
        b"sending" => Some(Word::Sending),
        b"receiving" => Some(Word::Receiving),
        b"cluster" => Some(Word::Cluster),
        b"counts" => Some(Word::Counts),
        b"pair" => Some(Word::Pair),
        b"first" => Some(Word::First),
        b"resend" => Some(Word::Resend),
        b"read" => Some(Word::Read),
        b"write" => Some(Word::Write),
        b"plan" => Some(Word::Plan),
        b"plan-bytes" => Some(Word::PlanBytes),
        b"wide" => Some(Word::Wide),
        b"less" => Some(Word::Less),
        b"least" => Some(Word::Least),
        b"is-message" => Some(Word::IsMessage),
        b"is-quantum" => Some(Word::IsQuantum),
        b"is-resend" => Some(Word::IsResend),
        b"put-number" => Some(Word::PutNumber),
        b"all-zero" => Some(Word::AllZero),
        b"is-marked" => Some(Word::IsMarked),
        b"mark" => Some(Word::Mark),
        b"unmark" => Some(Word::Unmark),
        b"run" => Some(Word::Run),
        b"past" => Some(Word::Past),
        b"reach" => Some(Word::Reach),
        b"is-subset" => Some(Word::IsSubset),
        b"holds" => Some(Word::Holds),
        b"none-above" => Some(Word::NoneAbove),
        b"divisor" => Some(Word::Divisor),
        b"resend-from" => Some(Word::ResendFrom),
        _ => None,
    }
}
