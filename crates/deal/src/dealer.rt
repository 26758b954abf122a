// The deal, slot after slot: the owner of a slot, and of those that follow it, none of which need then be looked up again.
ghost use Rattle.std.specs.Prelude.{◌≡◌, ◌+◌, ◌%◌, ◌≤◌, ◌<◌, length, get_or};
ghost use Rattle.deal.specs.Rounds.{slots_before, owner_of};
ghost use Rattle.deal.specs.Dealing.{takers_before, Dealing, Fallen};

use crate::slots::{spot_of, takes_slot};

// A deal in progress: the counts of an accepted cluster, which fill the quantum, and the place that it stands at: a slot, a round, and a
// member from which on the slot may fall to someone.
#[derive(Clone, Copy)]
pub struct Dealer<'a> {
    pub counts: &'a [u32],
    pub q: u32,
    pub slot: u32,
    pub round: u32,
    pub member: u32,
    pub ghost few: { length counts.now ≤ 64 },
    pub ghost dealing: { Dealing counts.now q slot round member },
}

// The first member, from this one on, that takes a slot in round t; the number of members where none does, so that what is promised of those
// before it holds of all, and needs no case of its own.
fn taker_from(counts: &[u32], t: u32, from: u32) -> u32
    requires { (length counts.now ≤ 64) × (from ≤ length counts.now) }
    ensures { (result ≤ length counts.now) × (takers_before counts.now t result ≡ takers_before counts.now t from) × (result < length counts.now → t < get_or counts.now result 0) }
{
    for i in (from as usize)..counts.len() {
        if t < counts[i] {
            return i as u32;
        }
    }
    counts.len() as u32
}

// The member before which just so many take a slot in round t.
fn member_past(counts: &[u32], t: u32, place: u32) -> u32
    requires { (length counts.now ≤ 64) × (place ≤ takers_before counts.now t (length counts.now)) }
    ensures { (result ≤ length counts.now) × (takers_before counts.now t result ≡ place) }
{
    let mut seen: u32 = 0;
    for (i, count) in counts.iter().enumerate() {
        if seen == place {
            return i as u32;
        }
        seen += takes_slot(*count, t);
    }
    counts.len() as u32
}

impl<'a> Dealer<'a> {
    // The deal at a slot.
    // inner: for a caller that holds the counts of an accepted cluster, which fill the quantum.
    pub fn at(counts: &'a [u32], q: u32, slot: u32) -> Dealer<'a>
        requires { (length counts.now ≤ 64) × (slots_before counts.now q ≡ q) × (slot < q) }
        ensures { (result.counts.now ≡ counts.now) × (result.q ≡ q) × (result.slot ≡ slot) }
    {
        let spot = spot_of(counts, q, slot);
        let member = member_past(counts, spot.round, spot.place);
        Dealer {
            counts,
            q,
            slot,
            round: spot.round,
            member,
        }
    }

    // The member to whom the slot falls; the deal then stands at the next slot, after the last one at the first again.
    pub fn deal(&mut self) -> u32
        ensures owner { (result ≡ owner_of self.old.counts.now self.old.q self.old.slot) × (result < length self.old.counts.now) }
        ensures next { (self.new.counts.now ≡ self.old.counts.now) × (self.new.q ≡ self.old.q) × (self.new.slot ≡ (self.old.slot + 1) % self.old.q) }
    {
        self.fall();
        let owner = self.member;
        self.pass();
        owner
    }

    // On to the member to whom the slot falls: in this round, or in the next, since no later round has a slot if that has none.
    pub fn fall(&mut self)
        ensures same { (self.new.counts.now ≡ self.old.counts.now) × (self.new.q ≡ self.old.q) × (self.new.slot ≡ self.old.slot) }
        ensures owner { self.new.member ≡ owner_of self.old.counts.now self.old.q self.old.slot }
        ensures fallen { Fallen self.old.counts.now self.old.q self.old.slot self.new.round self.new.member }
    {
        let member = taker_from(self.counts, self.round, self.member);
        if (member as usize) < self.counts.len() {
            self.member = member;
            return;
        }
        let round = self.round + 1;
        self.member = taker_from(self.counts, round, 0);
        self.round = round;
    }

    // On to the next slot, after the last one the first again.
    // inner: from the member to whom the slot falls.
    pub fn pass(&mut self)
        requires { Fallen self.old.counts.now self.old.q self.old.slot self.old.round self.old.member }
        ensures { (self.new.counts.now ≡ self.old.counts.now) × (self.new.q ≡ self.old.q) × (self.new.slot ≡ (self.old.slot + 1) % self.old.q) }
    {
        let slot = self.slot + 1;
        if slot == self.q {
            self.slot = 0;
            self.round = 0;
            self.member = 0;
            return;
        }
        self.slot = slot;
        self.member += 1;
    }
}
