// Whether the pairs of a topology and the entries of a matrix bind inside a region, by local row: a numeric plan refuses a pair without an entry and
// an entry without a pair. It holds no public call.
#![tactic(auto)]

ghost use Rattle.std.specs.Prelude.{◌≡◌};

use std::ops::Add;

pub mod inner;

// Consecutive entries of a row that lie in one word: their bits, where they end, and of those inside the region how many columns and how many
// entries.
#[derive(Clone, Copy)]
pub struct Run {
    pub bits: u64,
    pub end: usize,
    pub pairs: usize,
    pub sources: usize,
}

// What rows that bind hold inside the region.
#[derive(Clone, Copy, Default)]
pub struct RowCounts {
    pub pairs: usize,
    pub sources: usize,
}

impl Add for RowCounts {
    ghost use Rattle.binding.specs.Steps.{together, Few};

    type Output = RowCounts;

    ghost can_add = { λ a b. Few (together a b) };

    ghost add_gives = { λ a b r. r ≡ together a b };

    fn add(self, other: RowCounts) -> RowCounts {
        RowCounts {
            pairs: self.pairs + other.pairs,
            sources: self.sources + other.sources,
        }
    }
}

// How many members there are, and what their rows hold.
#[derive(Clone, Copy)]
pub struct Counts {
    pub members: usize,
    pub rows: RowCounts,
}
