// Text, written into a lent output from a place on. Each function says where its text ends. The place goes beside the output: a struct of
// both would hold a `&mut`, and each function would have to promise besides that it keeps that one.
ghost use Rattle.std.specs.Prelude.{◌≡◌, ◌+◌, ◌≤◌, length};
ghost use Rattle.lines.specs.Text.{field_of, line_of, put};

use crate::digits::put_number;

// The bytes as they are.
// inner: for a caller that has seen to it that there is room.
pub fn put_bytes(bytes: &[u8], out: &mut [u8], at: usize) -> usize
    requires { at + length bytes.now ≤ length out.old }
    ensures { (result ≡ at + length bytes.now) × (out.new ≡ put at bytes.now out.old) }
{
    let end = at + bytes.len();
    out[at..end].copy_from_slice(bytes);
    end
}

// A number and the byte that ends it.
// inner: as for the bytes.
pub fn put_field(x: u64, end: u8, out: &mut [u8], at: usize) -> usize
    requires { at + length (field_of x end) ≤ length out.old }
    ensures { (result ≡ at + length (field_of x end)) × (out.new ≡ put at (field_of x end) out.old) }
{
    let next = put_number(x, out, at);
    out[next] = end;
    next + 1
}

// Four numbers, one space between, and a newline.
// inner: as for the bytes.
pub fn put_line(n: u64, sender: u64, receiver: u64, run: u64, out: &mut [u8], at: usize) -> usize
    requires { at + length (line_of n sender receiver run) ≤ length out.old }
    ensures { (result ≡ at + length (line_of n sender receiver run)) × (out.new ≡ put at (line_of n sender receiver run) out.old) }
{
    let a = put_field(n, b' ', out, at);
    let b = put_field(sender, b' ', out, a);
    let c = put_field(receiver, b' ', out, b);
    put_field(run, b'\n', out, c)
}
