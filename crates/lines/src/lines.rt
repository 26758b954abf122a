// The lines of a plan.
ghost use Rattle.std.specs.Prelude.{◌≡◌, ◌++◌, ◌+◌, ◌*◌, ◌-◌, ◌<◌, ◌≤◌, length};
ghost use Rattle.circle.specs.Positions.{Sized, resend_from};
ghost use Rattle.deal.specs.Pairs.{answered};
ghost use Rattle.lines.specs.Text.{put};
ghost use Rattle.lines.specs.Lines.{refused_text, header_line, copy_line, step_line, walk_lines, all_lines, Short};

use crate::text::{put_bytes, put_field, put_line};
use circle::Position;
use deal::Pair;

// The text of a refusal, which is no longer than 29 bytes: of any number and no `Refusal`, which would take less than its contract promises.
// inner: for a caller that has seen to it that there is room.
pub fn put_refused(n: u32, out: &mut [u8]) -> usize
    requires { 29 ≤ length out.old }
    ensures { (result ≡ length (refused_text n)) × (out.new ≡ put 0 (refused_text n) out.old) }
{
    let at = put_bytes(b"refused ", out, 0);
    put_field(u64::from(n), b'\n', out, at)
}

// The header and the line of the first copy, which are no longer than 29 bytes.
// inner: for members of two digits, and where there is room.
pub fn put_head(first: Pair, out: &mut [u8]) -> usize
    requires { (first.sender < 100) × (first.receiver < 100) × (29 ≤ length out.old) }
    ensures { (result ≡ length (header_line ++ copy_line (answered first))) × (out.new ≡ put 0 (header_line ++ copy_line (answered first)) out.old) }
{
    let at = put_bytes(b"resend from to run\n", out, 0);
    let sender = u64::from(first.sender);
    let receiver = u64::from(first.receiver);
    put_line(0, sender, receiver, 0, out, at)
}

// The line of resend n, which starts at a position: no line is longer than 27 bytes.
fn put_resend(n: usize, pos: Position, out: &mut [u8], at: usize) -> usize
    requires { (n < 1000) × (Short (resend_from pos)) × (at + 27 ≤ length out.old) }
    ensures { (result ≡ at + length (step_line (resend_from pos) n)) × (out.new ≡ put at (step_line (resend_from pos) n) out.old) }
{
    let z = circle::resend_from(pos);
    let sender = u64::from(z.sender);
    let receiver = u64::from(z.receiver);
    put_line(n as u64, sender, receiver, z.run, out, at)
}

// The lines of resends 1 to `last`, the original sender being member i: one step on the circle a line.
fn put_walk(ss: &[u32], rs: &[u32], i: usize, last: usize, out: &mut [u8], at: usize) -> usize
    requires { (Sized ss.now) × (Sized rs.now) × (i < length ss.now) × (last < 1000) × (at + 27 * last ≤ length out.old) }
    ensures { (result ≡ at + length (walk_lines ss.now rs.now i last)) × (out.new ≡ put at (walk_lines ss.now rs.now i last) out.old) }
{
    let c = circle::circle_of(ss, rs);
    let mut pos = circle::start(ss, rs, c, i);
    let mut to = at;
    for n in 1..last + 1 {
        to = put_resend(n, pos, out, to);
        pos = circle::next(ss, rs, c, pos);
    }
    to
}

// The lines of the resends up to the number in demand 3.
// inner: for accepted clusters, and where there is room.
pub fn put_resends(ss: &[u32], rs: &[u32], i: usize, out: &mut [u8], at: usize) -> usize
    requires { (Sized ss.now) × (Sized rs.now) × (i < length ss.now) × (at + 27 * (length ss.now + length rs.now - 1) ≤ length out.old) }
    ensures { (result ≡ at + length (all_lines ss.now rs.now i)) × (out.new ≡ put at (all_lines ss.now rs.now i) out.old) }
{
    let last = ss.len() + rs.len() - 1;
    put_walk(ss, rs, i, last, out, at)
}
