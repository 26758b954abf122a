// Runs the cases on standard input through the library, one to a line, and writes each line back with what the call answered: the
// calls on a state that is kept from line to line, a window and the holdings of a receiving member, and edits that make a state
// ill formed. A case is a word and decimal numbers, one space between; a line that starts with any other word, as #, is a
// remark. What is written after the colon, the call's refusal first, stands with the word in `words`.
//
// The expected lines were not taken from a run: they were worked out by a model written from document 01, and the refusals by hand
// from its table and its orders. Those of arrive-at and holds-well, and three of arrive, come from a second model, which follows the
// document's sentences but was written with the library's code known. Cases are lines and not code, so that another one costs no
// proof.
#![tactic(auto)]

mod bench;
mod edits;
mod lines;
mod members;
mod show;
mod windows;
mod words;

use std::io;

fn main(rt: HostRuntime) -> io::Result<()> {
    let mut space = [0u8; 65_536];
    let n = reading::read_full(&mut rt.stdin(), &mut space)?;
    lines::run_all(&mut rt.stdout(), &space[..n])
}
