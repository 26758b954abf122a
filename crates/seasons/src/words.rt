// The words that a case may start with. Behind each stands what its numbers are and what is written after the colon.
use script::input::word;

#[derive(Clone, Copy)]
pub(crate) enum Word {
    // u r shares: the cluster that the next cases get as the sending one, and no answer.
    Sending,
    // The same of the receiving one.
    Receiving,
    // q: the refusal, and the window that is handed back for the next cases.
    Open,
    // k: the refusal, and the step.
    Send,
    // member c mask room: the refusal, the verdicts written, the step, and the output, each byte 7 before.
    Report,
    // 1 where the state is well formed, else 0.
    Formed,
    // The whole state, places of zeros left out.
    Show,
    // The window is kept, with no answer.
    Keep,
    // The next cases get the window that was kept, with no answer.
    Back,
    // q: put into the window, well formed or not, with no answer. So is what the next words put.
    PutQuantum,
    // S
    PutSent,
    // members u r
    PutSending,
    // place share
    PutSendingShare,
    // members u r
    PutReceiving,
    // place share
    PutReceivingShare,
    // p
    PutPoint,
    // member c mask heard
    PutReport,
    // place count complaints
    PutEntry,
    // k: the refusal and the holdings after it.
    Arrive,
    // The receiver's report, its refusal first.
    Tell,
    // c mask: the holdings that the next calls get, well formed or not, and no answer.
    Hold,
    // The holdings of a member that has received nothing, and no answer.
    Fresh,
    // 1 where the holdings are well formed, else 0.
    HoldsWell,
    // k: the same as of arrive, by lent holdings.
    ArriveAt,
}

// The word that a line starts with; none where the line is a remark.
pub(crate) fn word_of(line: &[u8]) -> Option<Word> {
    match word(line) {
        b"sending" => Some(Word::Sending),
        b"receiving" => Some(Word::Receiving),
        b"open" => Some(Word::Open),
        b"send" => Some(Word::Send),
        b"report" => Some(Word::Report),
        b"formed" => Some(Word::Formed),
        b"show" => Some(Word::Show),
        b"keep" => Some(Word::Keep),
        b"back" => Some(Word::Back),
        b"put-quantum" => Some(Word::PutQuantum),
        b"put-sent" => Some(Word::PutSent),
        b"put-sending" => Some(Word::PutSending),
        b"put-sending-share" => Some(Word::PutSendingShare),
        b"put-receiving" => Some(Word::PutReceiving),
        b"put-receiving-share" => Some(Word::PutReceivingShare),
        b"put-point" => Some(Word::PutPoint),
        b"put-report" => Some(Word::PutReport),
        b"put-entry" => Some(Word::PutEntry),
        b"arrive" => Some(Word::Arrive),
        b"tell" => Some(Word::Tell),
        b"hold" => Some(Word::Hold),
        b"fresh" => Some(Word::Fresh),
        b"holds-well" => Some(Word::HoldsWell),
        b"arrive-at" => Some(Word::ArriveAt),
        _ => None,
    }
}
