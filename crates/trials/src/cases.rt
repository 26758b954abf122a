// The lines of the input, each a case or a remark.
use crate::words::{Word, word_of};
use crate::{bytes, circles, clusters, links, pairs, plans};
use script::groups::Unit;
use script::input::{Numbers, short};
use script::lines::run_each;
use script::say;
use script::sides::{Side, Sides, no_sides};
use std::io;
use std::io::Write;

// What is written after a case, and the clusters that the next ones get.
fn answer(to: &mut impl Write, sides: &mut Sides, word: Word, args: &Numbers) -> io::Result<()> {
    let (a, b, c) = (args.at[1], args.at[2], args.at[3]);
    match word {
        Word::Sending => sides.put_sending(args),
        Word::Receiving => sides.put_receiving(args),
        Word::Cluster => clusters::cluster(to, &Side::of(args))?,
        Word::Counts => clusters::counts(to, &sides.sending, short(a), b as usize)?,
        Word::Pair => pairs::pair(to, sides, short(a))?,
        Word::First => pairs::first(to, sides, short(a), b)?,
        Word::Resend => pairs::resend(to, sides, short(a), b, short(c))?,
        Word::Read => links::read(to, args)?,
        Word::Write => links::write(to, args)?,
        Word::Plan => plans::plan(to, args, Unit::Record)?,
        Word::PlanBytes => plans::plan(to, args, Unit::Byte)?,
        Word::Wide => say::answer(to, basics::wide(short(a)))?,
        Word::Less => say::answer(to, basics::less(a, b))?,
        Word::Least => say::answer(to, basics::least(a, b))?,
        Word::IsMessage => say::truth(to, basics::is_message(a))?,
        Word::IsQuantum => say::truth(to, basics::is_quantum(short(a)))?,
        Word::IsResend => say::truth(to, basics::is_resend(short(a)))?,
        Word::PutNumber => bytes::put_number(to, a, b as usize)?,
        Word::AllZero => bytes::all_zero(to, args)?,
        Word::IsMarked => say::truth(to, marks::is_marked(a, b))?,
        Word::Mark => say::answer(to, marks::mark(a, b))?,
        Word::Unmark => say::answer(to, marks::unmark(a, b))?,
        Word::Run => say::answer(to, u64::from(marks::run(a)))?,
        Word::Past => say::answer(to, marks::past(a, b))?,
        Word::Reach => say::answer(to, marks::reach(a))?,
        Word::IsSubset => say::truth(to, marks::is_subset(a, b))?,
        Word::Holds => say::truth(to, marks::holds(a, b, c))?,
        Word::NoneAbove => say::truth(to, marks::none_above(a, b, c))?,
        Word::Divisor => say::answer(to, circle::divisor(a, b))?,
        Word::ResendFrom => circles::resend_from(to, args)?,
    }
    Ok(())
}

pub(crate) fn run_all(to: &mut impl Write, cases: &[u8]) -> io::Result<()> {
    let mut sides = no_sides();
    run_each(to, cases, |to, line| match word_of(line) {
        Some(word) => answer(to, &mut sides, word, &Numbers::of(line)),
        None => Ok(()),
    })
}
