// One turn of the walk as a table: for a caller that asks for many resends between the same two clusters.
ghost use Rattle.std.specs.Prelude.{◌≡◌, cond, ◌+◌, ◌-◌, ◌*◌, ◌%◌, ◌<◌, ◌≤◌, eqb, length, get_or};
ghost use Rattle.circle.specs.Positions.{Sized, circle_of, position_of};
ghost use Rattle.circle.specs.TurnTable.{FirstSteps, TurnTable, ends_of};

use crate::stretches::{Place, member_after, stretch};
use crate::walk::{Circle, Position, circle_of, next, resend_at, start};

// A resend's two ends. `deal::Pair` has the same two numbers, of a first copy: one type for both would stand below both crates and be named
// for neither.
#[derive(Clone, Copy)]
pub struct Ends {
    pub sender: u32,
    pub receiver: u32,
}

// One turn between two clusters: so many steps, after which the walk is back; 0 where it is not back within 128, as `TurnTable` has it. Of the
// walk from unit 0, where resend 1 of the last member starts, the columns have the two ends of each step, and for each member the step with
// which its stretch begins, 128 or more where none does. They are lent, and stay where they were filled: moved, they would cost as much stack
// again each time. Places that are never read hold any number.
#[derive(Clone, Copy)]
pub struct Table<'a> {
    pub ss: &'a [u32],
    pub rs: &'a [u32],
    pub senders: &'a [u32],
    pub receivers: &'a [u32],
    pub begins: &'a [u32],
    pub count: u32,
    pub ghost sending: { Sized ss.now },
    pub ghost receiving: { Sized rs.now },
    pub ghost table: { TurnTable ss.now rs.now senders.now receivers.now begins.now count },
}

// The step with which the stretch at a place begins: step j where the whole of the stretch is left, else the one known before.
fn begin_at(shares: &[u32], factor: u64, at: Place, j: u32, before: u32) -> u32
    requires { (factor ≤ 64000000) × (at.member < length shares.now) }
    ensures { result ≡ cond (eqb at.left (factor * get_or shares.now at.member 0)) j before }
{
    let whole = stretch(shares, factor, at.member as usize);
    if at.left == whole { j } else { before }
}

// The step of resend n, where resend 1 is the step with which a stretch begins. Within the first turn nothing is divided.
fn step_of(begin: u32, n: u32, steps: u32) -> u32
    requires { (begin < steps) × (steps ≤ 128) × (1 ≤ n) × (n ≤ 256) }
    ensures { (result ≡ (begin + n - 1) % steps) × (result < steps) }
{
    let step = begin + n - 1;
    if step < steps {
        return step;
    }
    step % steps
}

// Step j, which starts at a position, put into the columns behind those before it; and where the next step starts.
fn put_step(
    ss: &[u32],
    rs: &[u32],
    c: Circle,
    at: Position,
    j: u32,
    senders: &mut [u32],
    receivers: &mut [u32],
    begins: &mut [u32],
) -> Position
    requires sized { (Sized ss.now) × (Sized rs.now) × (c ≡ circle_of ss.now rs.now) × (at ≡ position_of ss.now rs.now (length ss.now - 1) (j + 1)) × (j < 128) }
    requires first_steps { FirstSteps ss.now rs.now senders.old receivers.old begins.old j }
    ensures value { result ≡ position_of ss.now rs.now (length ss.now - 1) (j + 1 + 1) }
    ensures more_steps { FirstSteps ss.now rs.now senders.new receivers.new begins.new (j + 1) }
{
    let m = at.sender.member as usize;
    senders[j as usize] = at.sender.member;
    receivers[j as usize] = at.receiver.member;
    begins[m] = begin_at(ss, c.send, at.sender, j, begins[m]);
    next(ss, rs, c, at)
}

// The columns of one turn, and its steps; 0 where the walk is not back within 128. A turn has fewer, by `OneTurn`, but who reads the table
// walks where it has no answer, and so nothing rests on that.
// inner: for the shares of accepted clusters, and room for the columns, in which no stretch has begun.
pub fn fill_turn(
    ss: &[u32],
    rs: &[u32],
    senders: &mut [u32],
    receivers: &mut [u32],
    begins: &mut [u32],
) -> u32
    requires { (Sized ss.now) × (Sized rs.now) × (FirstSteps ss.now rs.now senders.old receivers.old begins.old 0) }
    ensures { TurnTable ss.now rs.now senders.new receivers.new begins.new result }
{
    let c = circle_of(ss, rs);
    let first = start(ss, rs, c, ss.len() - 1);
    let mut at = first;
    for j in 0..128 {
        at = put_step(ss, rs, c, at, j, senders, receivers, begins);
        if at == first {
            return j + 1;
        }
    }
    0
}

impl Table<'_> {
    // The ends of resend n, the original sender being member i: from the table, or walked where the table does not have them.
    // inner: for a member of the sending cluster; n is one more than a count of at most 255.
    pub fn ends(&self, i: usize, n: u32) -> Ends
        requires { (i < length self.now.ss.now) × (1 ≤ n) × (n ≤ 256) }
        ensures { result ≡ ends_of self.now.ss.now self.now.rs.now i n }
    {
        let begin = self.begins[member_after(self.ss.len(), i)];
        if begin < self.count {
            let j = step_of(begin, n, self.count) as usize;
            return Ends {
                sender: self.senders[j],
                receiver: self.receivers[j],
            };
        }
        let resend = resend_at(self.ss, self.rs, i, n);
        Ends {
            sender: resend.sender,
            receiver: resend.receiver,
        }
    }
}
