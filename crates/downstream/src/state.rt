// What is kept of a cluster, a report and an open message, as structs by value.

// A cluster as the state keeps it: share places past its members are zero.
#[derive(Clone, Copy, PartialEq, Eq)]
pub struct Cluster {
    pub members: u32,
    pub u: u32,
    pub r: u32,
    pub shares: [u32; 64],
}

// The latest report of a member: cumulative number and mask, and whether it has reported at all. A flag beside them, and no `Option`: document
// 01 names the form, number, mask and flag.
#[derive(Clone, Copy, PartialEq, Eq, Default)]
pub struct Report {
    pub number: u64,
    pub mask: u64,
    pub heard: bool,
}

// What is kept of an open message: how often it was sent again, and the set of members that complain of it.
#[derive(Clone, Copy, PartialEq, Eq, Default)]
pub struct Entry {
    pub count: u32,
    pub complaints: u64,
}

// All that belongs to one receiving cluster.
#[derive(Clone, Copy, PartialEq, Eq)]
pub struct Downstream {
    pub cluster: Cluster,
    pub point: u64,
    pub reports: [Report; 64],
    pub entries: [Entry; 64],
}
