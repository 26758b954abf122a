// From the input's bytes to the plan's text.
ghost use Rattle.std.specs.Prelude.{◌≡◌, ◌++◌, ◌≤◌, length, drop};
ghost use Rattle.input.specs.Build.{BuiltOf};
ghost use Rattle.lines.specs.Text.{put};
ghost use Rattle.planner.specs.Asked.{asking, asked_with};
ghost use Rattle.planner.specs.Plan.{asked_text, plan_text, text_room};

use basics::Refusal;
use deal::Link;
use input::Numbers;
use shares::LentCluster;

// The bytes that a text may need: `text_room` of the definitions.
pub const ROOM: usize = 3458;

// The shares that an input may have: 4,096 bytes hold 341 records, and three of them are no shares.
const SHARES: usize = 338;

// The text for two clusters' shares and the numbers beside them.
fn put_asked(ss: &[u32], rs: &[u32], x: Numbers, out: &mut [u8]) -> usize
    requires { text_room ≤ length out.old }
    ensures { (result ≡ length (asked_text (asking ss.now rs.now x))) × (out.new ≡ put 0 (asked_text (asking ss.now rs.now x)) out.old) }
{
    let link = Link {
        sending: LentCluster {
            shares: ss,
            u: x.su,
            r: x.sr,
        },
        receiving: LentCluster {
            shares: rs,
            u: x.ru,
            r: x.rr,
        },
        quantum: x.quantum,
    };
    match link.first_pair(u64::from(x.message)) {
        Err(refusal) => lines::put_refused(refusal.number(), out),
        Ok(first) => {
            let at = lines::put_head(first, out);
            lines::put_resends(ss, rs, first.sender as usize, out, at)
        }
    }
}

// The text for an input with a shares of kind 2 and b of kind 4.
fn put_built(s: &[u8], a: usize, b: usize, out: &mut [u8]) -> usize
    requires { (BuiltOf s.now a b) × (text_room ≤ length out.old) }
    ensures { (result ≡ length (asked_text (asked_with s.now a b))) × (out.new ≡ put 0 (asked_text (asked_with s.now a b)) out.old) }
{
    let mut ss = [0u32; SHARES];
    input::fill_shares(s, 1, a, &mut ss);
    let mut rs = [0u32; SHARES];
    input::fill_shares(s, a + 2, b, &mut rs);
    let x = input::read_numbers(s, a, b);
    put_asked(&ss[..a], &rs[..b], x, out)
}

// The plan's text for an input of any bytes, and how many bytes it has; the output's later bytes stay.
pub fn plan(input: &[u8], out: &mut [u8; ROOM]) -> usize
    ensures { (result ≡ length (plan_text input.now)) × (out.new ≡ plan_text input.now ++ drop (length (plan_text input.now)) out.old) }
{
    match input::build_of(input) {
        None => lines::put_refused(Refusal::BadlyBuilt.number(), out),
        Some(build) => put_built(input, build.senders, build.receivers, out),
    }
}
