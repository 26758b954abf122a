// The two clusters that cases lend to calls.
ghost use Rattle.std.specs.Prelude.{◌≡◌, ◌-◌, if◌then◌else◌, nat_le, take, []};

use crate::input;
use crate::input::Numbers;
use deal::Link;
use shares::LentCluster;

// A cluster as a case gives it, accepted or not: how many members, and a share for each.
#[derive(Clone, Copy)]
pub struct Side {
    pub count: usize,
    pub u: u32,
    pub r: u32,
    pub shares: [u32; 100],
}

#[derive(Clone, Copy)]
pub struct Sides {
    pub sending: Side,
    pub receiving: Side,
}

impl Side {
    // u r shares
    pub fn of(args: &Numbers) -> Side
        ensures { result.count ≡ args.now.count - 2 }
    {
        let mut shares = [0; 100];
        for (share, number) in shares.iter_mut().zip(&args.at[3..]) {
            *share = input::short(*number);
        }
        Side {
            count: args.count.saturating_sub(2),
            u: input::short(args.at[1]),
            r: input::short(args.at[2]),
            shares,
        }
    }

    // The members' shares: none where they are more than there are places.
    pub fn members(&self) -> &[u32]
        ensures { result.now ≡ (if nat_le self.now.count 100 then take self.now.count self.now.shares else []) }
    {
        self.shares.get(..self.count).unwrap_or(&[])
    }

    // The cluster as it is lent to a call.
    pub fn lent(&self) -> LentCluster<'_>
        ensures { (result.shares.now ≡ (if nat_le self.now.count 100 then take self.now.count self.now.shares else [])) × (result.u ≡ self.now.u) × (result.r ≡ self.now.r) }
    {
        LentCluster {
            shares: self.members(),
            u: self.u,
            r: self.r,
        }
    }
}

impl Sides {
    // sending u r shares: what the next cases get as the sending cluster; the other stays.
    pub fn put_sending(&mut self, args: &Numbers)
        ensures { (self.new.sending.count ≡ args.now.count - 2) × (self.new.receiving ≡ self.old.receiving) }
    {
        self.sending = Side::of(args);
    }

    // receiving u r shares: the same of the receiving one.
    pub fn put_receiving(&mut self, args: &Numbers)
        ensures { (self.new.sending ≡ self.old.sending) × (self.new.receiving.count ≡ args.now.count - 2) }
    {
        self.receiving = Side::of(args);
    }

    // Both clusters, with a quantum.
    pub fn link(&self, quantum: u32) -> Link<'_>
        ensures sending { (result.sending.shares.now ≡ (if nat_le self.now.sending.count 100 then take self.now.sending.count self.now.sending.shares else [])) × (result.sending.u ≡ self.now.sending.u) × (result.sending.r ≡ self.now.sending.r) }
        ensures receiving { (result.receiving.shares.now ≡ (if nat_le self.now.receiving.count 100 then take self.now.receiving.count self.now.receiving.shares else [])) × (result.receiving.u ≡ self.now.receiving.u) × (result.receiving.r ≡ self.now.receiving.r) }
        ensures quantum { result.quantum ≡ quantum }
    {
        Link {
            sending: self.sending.lent(),
            receiving: self.receiving.lent(),
            quantum,
        }
    }
}

// No members on either side.
pub fn no_sides() -> Sides
    ensures { (result.sending.count ≡ 0) × (result.receiving.count ≡ 0) }
{
    let none = Side::of(&Numbers {
        count: 0,
        at: [0; 100],
    });
    Sides {
        sending: none,
        receiving: none,
    }
}
