// The lines of the input, each a case or a remark.
use crate::bench::Bench;
use crate::words::{Word, word_of};
use crate::{bench, edits, members, show, windows};
use script::input::{Numbers, short};
use script::lines::run_each;
use script::say;
use std::io;
use std::io::Write;

// What is written after a case, and what the next ones work on.
fn answer(to: &mut impl Write, b: &mut Bench, word: Word, args: &Numbers) -> io::Result<()> {
    let w = &mut b.window;
    match word {
        Word::Sending => b.sides.put_sending(args),
        Word::Receiving => b.sides.put_receiving(args),
        Word::Open => *w = windows::open(to, &b.sides, short(args.at[1]))?,
        Word::Send => windows::send(to, w, args.at[1])?,
        Word::Report => windows::report(to, w, args)?,
        Word::Formed => say::truth(to, w.well_formed())?,
        Word::Show => show::show(to, w)?,
        Word::Keep => b.kept = *w,
        Word::Back => *w = b.kept,
        Word::PutQuantum => w.quantum = short(args.at[1]),
        Word::PutSent => w.sent = args.at[1],
        Word::PutSending => edits::put_bounds(&mut w.sending, args),
        Word::PutSendingShare => edits::put_share(&mut w.sending, args),
        Word::PutReceiving => edits::put_bounds(&mut w.downstream.cluster, args),
        Word::PutReceivingShare => edits::put_share(&mut w.downstream.cluster, args),
        Word::PutPoint => w.downstream.point = args.at[1],
        Word::PutReport => edits::put_report(&mut w.downstream, args),
        Word::PutEntry => edits::put_entry(&mut w.downstream, args),
        Word::Arrive => members::arrive(to, &mut b.holdings, args.at[1])?,
        Word::Tell => members::tell(to, b.holdings)?,
        Word::Hold => b.holdings = members::hold(args),
        Word::Fresh => b.holdings = holdings::fresh(),
        Word::HoldsWell => say::truth(to, holdings::well_formed(b.holdings))?,
        Word::ArriveAt => members::arrive_at(to, &mut b.holdings, args.at[1])?,
    }
    Ok(())
}

pub(crate) fn run_all(to: &mut impl Write, cases: &[u8]) -> io::Result<()> {
    let mut b = bench::empty();
    run_each(to, cases, |to, line| match word_of(line) {
        Some(word) => answer(to, &mut b, word, &Numbers::of(line)),
        None => Ok(()),
    })
}
