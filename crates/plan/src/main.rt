// The plan program: reads what is asked for from standard input, and prints the plan.
#![tactic(auto)]

use reading::read_full;
use std::io;

fn main(rt: HostRuntime) -> io::Result<()> {
    // One byte more than an input may have tells that there are too many.
    let mut input = [0u8; 4097];
    let n = read_full(&mut rt.stdin(), &mut input)?;
    let mut text = [0u8; planner::ROOM];
    let end = planner::plan(&input[..n], &mut text);
    rt.write_all(&text[..end])
}
