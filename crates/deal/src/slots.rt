// The rounds of a deal, without listing it: the round that a slot is in, and its place there.
ghost use Rattle.std.specs.Prelude.{◌≡◌, cond, ◌+◌, ◌≤◌, ◌<◌, ltb, length};
ghost use Rattle.deal.specs.Rounds.{slots_before};
ghost use Rattle.deal.specs.Dealing.{takers_before};

// A round: how many slots the rounds before it have, and how many members take one in it.
#[derive(Clone, Copy)]
struct Round {
    before: u32,
    takers: u32,
}

// Where a slot lies: in a round, after so many others of it.
#[derive(Clone, Copy)]
pub(crate) struct Spot {
    pub(crate) round: u32,
    pub(crate) place: u32,
}

// 1 where a member with this count takes a slot in round t, else 0. `hamilton` asks the same of keys: one for both would have neither name.
pub(crate) fn takes_slot(count: u32, t: u32) -> u32
    ensures { (result ≡ cond (ltb t count) 1 0) × (result ≤ 1) }
{
    (t < count) as u32
}

// Round t, both its numbers in one pass over the counts.
fn round_at(counts: &[u32], t: u32) -> Round
    requires { (length counts.now ≤ 64) × (slots_before counts.now t ≤ 4294967295) }
    ensures { (result.before ≡ slots_before counts.now t) × (result.takers ≡ takers_before counts.now t (length counts.now)) }
{
    let mut before: u32 = 0;
    let mut takers: u32 = 0;
    for count in counts {
        before += (*count).min(t);
        takers += takes_slot(*count, t);
    }
    Round { before, takers }
}

// A later round that a slot is not before, where so many slots are left from round t on: no later round has more takers than this one.
fn round_past(counts: &[u32], q: u32, slot: u32, t: u32, left: u32, takers: u32) -> u32
    requires { (slot < slots_before counts.now q) × (slots_before counts.now t + left ≡ slot) × (takers ≡ takers_before counts.now t (length counts.now)) × (takers ≤ left) }
    ensures { (t < result) × (result < q) × (slots_before counts.now result ≤ slot) }
{
    t + left / takers
}

// Where a slot lies. No plain count: from round to round as far as the takers' number lets one go at once, and where shares differ little
// that is the round.
pub(crate) fn spot_of(counts: &[u32], q: u32, slot: u32) -> Spot
    requires { (length counts.now ≤ 64) × (slot < slots_before counts.now q) × (slots_before counts.now q ≤ 4294967295) }
    ensures { (result.round < q) × (slots_before counts.now result.round + result.place ≡ slot) × (result.place < takers_before counts.now result.round (length counts.now)) }
{
    let first = round_at(counts, 0);
    let mut round: u32 = 0;
    let mut place = slot;
    let mut takers = first.takers;
    while takers <= place {
        round = round_past(counts, q, slot, round, place, takers);
        let at = round_at(counts, round);
        place = slot - at.before;
        takers = at.takers;
    }
    Spot { round, place }
}
