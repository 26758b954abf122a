// Runs the cases on standard input through the library, one to a line, and writes each line back with what the call answered: the
// calls that keep nothing between lines but the two clusters that are lent to them. A case is a word and decimal numbers, one
// space between; a line that starts with any other word, as #, is a remark. What is written after the colon, the call's refusal
// first, stands with the word in `words`.
//
// The expected lines were not taken from a run. Those of cluster, counts, first, resend, read and write were worked out by a model
// written from document 01, and their refusals by hand from its table and its orders. Those of the other words come from a second
// model, which follows the document's sentences but was written with the library's code known; the refusals of plan and pair were
// then read against the table. The document does not name the small functions: what they are to answer is what stands with
// their words. Cases are lines and not code, so that another one costs no proof. Functions that ask something of their caller are not
// here: a line could not be held to it.
#![tactic(auto)]

mod bytes;
mod cases;
mod circles;
mod clusters;
mod links;
mod pairs;
mod plans;
mod words;

use std::io;

fn main(rt: HostRuntime) -> io::Result<()> {
    let mut space = [0u8; 65_536];
    let n = reading::read_full(&mut rt.stdin(), &mut space)?;
    cases::run_all(&mut rt.stdout(), &space[..n])
}
