// Lists of growths, refused ones among them, each seeded with the region that the last accepted one gave: together they are one growth by the
// total of their counts. Functions run one that is given by arrays, plain or by whole blocks. It holds no public call.
#![tactic(auto)]

pub mod inner;

// Of a list of growths: how many were accepted, the total of their counts, the last of their counts. `last` is 0 where none was accepted, which
// `accepted` tells.
#[derive(Clone, Copy, Default)]
pub struct Ran {
    pub accepted: u64,
    pub total: u64,
    pub last: u64,
}
