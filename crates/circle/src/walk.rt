// The walk of the resends on the circle, one step a resend.
ghost use Rattle.std.specs.Prelude.{◌≡◌, cond, ◌%◌, ◌<◌, ◌≤◌, length};
ghost use Rattle.circle.specs.Positions.{Sized, OnCircle, circle_of, position_of, run_at, next_of, resend_from, resend_of};

use crate::euclid::multiple;
use crate::stretches::{Place, locate, moved, stretch_end};

// L and the two scale factors.
#[derive(Clone, Copy)]
pub struct Circle {
    pub units: u64,
    pub send: u64,
    pub receive: u64,
}

// Where a resend's first unit lies in the two layouts.
#[derive(Clone, Copy, PartialEq, Eq)]
pub struct Position {
    pub sender: Place,
    pub receiver: Place,
}

// A resend: its two ends and its run.
#[derive(Clone, Copy, Default)]
pub struct Resend {
    pub sender: u32,
    pub receiver: u32,
    pub run: u64,
}

// The circle of two clusters.
// inner: for the shares of accepted clusters; for others L may not fit 64 bits.
pub fn circle_of(ss: &[u32], rs: &[u32]) -> Circle
    requires { (Sized ss.now) × (Sized rs.now) }
    ensures { result ≡ circle_of ss.now rs.now }
{
    let ds = shares::total(ss);
    let dr = shares::total(rs);
    let units = multiple(ds, dr);
    Circle {
        units,
        send: units / ds,
        receive: units / dr,
    }
}

// Where resend 1 starts, the original sender being member i.
// inner: as for the circle.
pub fn start(ss: &[u32], rs: &[u32], c: Circle, i: usize) -> Position
    requires { (Sized ss.now) × (Sized rs.now) × (c ≡ circle_of ss.now rs.now) × (i < length ss.now) }
    ensures { result ≡ position_of ss.now rs.now i 1 }
{
    let x = stretch_end(ss, c.send, c.units, i);
    let sender = locate(ss, c.send, x);
    let receiver = locate(rs, c.receive, x);
    Position { sender, receiver }
}

// The units up to the next stretch end in either layout.
fn run_at(at: Position) -> u64
    ensures { result ≡ run_at at }
{
    basics::least(at.sender.left, at.receiver.left)
}

// Where the resend after the one at a position starts: resend n + 1 from resend n, whatever the original sender.
// inner: a position off the circle has no next one.
pub fn next(ss: &[u32], rs: &[u32], c: Circle, at: Position) -> Position
    requires { OnCircle ss.now rs.now c at }
    ensures { result ≡ next_of ss.now rs.now c at }
{
    let run = run_at(at);
    let sender = moved(ss, c.send, at.sender, run);
    let receiver = moved(rs, c.receive, at.receiver, run);
    Position { sender, receiver }
}

// The resend that starts at a position.
pub fn resend_from(at: Position) -> Resend
    ensures { result ≡ resend_from at }
{
    Resend {
        sender: at.sender.member,
        receiver: at.receiver.member,
        run: run_at(at),
    }
}

// The steps that are left to walk after k: once the walk is back, each k of them lead back again.
fn steps_left(back: bool, left: u32, k: u32) -> u32
    requires { 1 ≤ k }
    ensures { (result ≡ cond back (left % k) left) × (result ≤ left) }
{
    if back { left % k } else { left }
}

// Where resend n starts, the original sender being member i; of whole turns, only the first is walked.
fn position_of(ss: &[u32], rs: &[u32], i: usize, n: u32) -> Position
    requires { (Sized ss.now) × (Sized rs.now) × (i < length ss.now) × (1 ≤ n) }
    ensures { result ≡ position_of ss.now rs.now i n }
{
    let c = circle_of(ss, rs);
    let first = start(ss, rs, c, i);
    let mut at = first;
    let mut k: u32 = 0;
    let mut left = n - 1;
    // No plain count: where the walk is back, all whole turns are taken off at once.
    while 0 < left {
        at = next(ss, rs, c, at);
        k += 1;
        left = steps_left(at == first, left - 1, k);
    }
    at
}

// Resend n, the original sender being member i.
// inner: as for the circle.
pub fn resend_at(ss: &[u32], rs: &[u32], i: usize, n: u32) -> Resend
    requires { (Sized ss.now) × (Sized rs.now) × (i < length ss.now) × (1 ≤ n) }
    ensures { result ≡ resend_of ss.now rs.now i n }
{
    resend_from(position_of(ss, rs, i, n))
}
