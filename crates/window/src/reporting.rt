// Reports.
ghost use Rattle.std.specs.Prelude.{◌≡◌, length};
ghost use Rattle.basics.specs.Refusals.{outcome_number};
ghost use Rattle.downstream.specs.State.{report_at};
ghost use Rattle.window.specs.Reporting.{report_refusal, Reportable};
ghost use Rattle.window.specs.Answers.{step_of, step_out, report_of, report_out, told};

use crate::refusing::given_refusal;
use crate::state::Window;
use basics::Refusal;
use downstream::{Cluster, Downstream, Report};

// How many verdicts were written, or why the report is refused, and the next state: the given one where it is refused, in an answer struct as
// document 01 names it.
#[derive(Clone, Copy)]
pub struct ReportAnswer {
    pub outcome: Result<u32, Refusal>,
    pub window: Window,
}

// The latest report of member i; an all-zero one where there is no such place.
fn former_of(reports: [Report; 64], i: u32) -> Report
    ensures { result ≡ report_at reports i }
{
    reports.get(i as usize).copied().unwrap_or_default()
}

// The refusal that a report gets: 17, 5, 8, 12, 11, 13 in this order.
fn report_refusal(w: Window, i: u32, c: u64, mask: u64, room: usize) -> Result<(), Refusal>
    ensures { outcome_number result ≡ report_refusal w i c mask room }
{
    if !w.well_formed() {
        return Err(Refusal::IllFormed);
    }
    let d = w.downstream;
    let members = u64::from(d.cluster.members);
    let former = former_of(d.reports, i);
    given_refusal(members, w.sent, former, i, c, mask, room)
}

// What an accepted report does to all that belongs to the receiving cluster.
#[derive(Clone, Copy)]
pub struct Step {
    pub verdicts: u32,
    pub downstream: Downstream,
}

// The steps of an accepted report, over the sending cluster, q and S, and one receiving cluster.
fn step_of(
    sending: Cluster,
    quantum: u32,
    sent: u64,
    before: Downstream,
    member: u32,
    number: u64,
    mask: u64,
    out: &mut [u8],
) -> Step
    requires { Reportable (record { sending = sending; quantum = quantum; sent = sent; downstream = before }) member number mask (length out.old) }
    ensures { (result ≡ step_of before sent member number mask) × (out.new ≡ step_out sending quantum before sent member number mask out.old) }
{
    let d = judging::taken(before, sent, member, number, mask);
    let lost = judging::due_set(d, sent);
    let verdicts = verdicts::write_verdicts(sending, quantum, d, sent, lost, out);
    let next = judging::judged(d, sent, lost);
    Step {
        verdicts,
        downstream: next,
    }
}

impl Window {
    // Takes a report from a member: its cumulative number and its mask. Verdicts go into the lent output, one after another.
    pub fn report(mut self, member: u32, number: u64, mask: u64, out: &mut [u8]) -> ReportAnswer
        ensures { (told result ≡ report_of self member number mask (length out.old)) × (out.new ≡ report_out self member number mask out.old) }
    {
        match report_refusal(self, member, number, mask, out.len()) {
            Err(refusal) => ReportAnswer {
                outcome: Err(refusal),
                window: self,
            },
            Ok(()) => {
                let step = step_of(
                    self.sending,
                    self.quantum,
                    self.sent,
                    self.downstream,
                    member,
                    number,
                    mask,
                    out,
                );
                self.downstream = step.downstream;
                ReportAnswer {
                    outcome: Ok(step.verdicts),
                    window: self,
                }
            }
        }
    }
}
