// The state, as a struct by value.
use downstream::{Cluster, Downstream};

#[derive(Clone, Copy, PartialEq, Eq)]
pub struct Window {
    pub sending: Cluster,
    pub quantum: u32,
    pub sent: u64,
    pub downstream: Downstream,
}
