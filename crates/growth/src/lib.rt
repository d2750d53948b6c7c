// The work of growing on words: the frontier's rows and columns joined into one mask, the new nodes taken into the region, hop by hop. Plain
// growth is here; field growth closes to blocks between the same two steps.
#![tactic(auto)]

ghost use Rattle.std.specs.Prelude.{◌≡◌};

use std::ops::Add;

pub mod inner;

// Of one row: its words, and the set bits in them.
#[derive(Clone, Copy)]
pub struct Taken {
    pub words: u64,
    pub bits: u64,
}

// How many nodes are visited, and the sums over them of the words of their rows, of their columns, and of the bits of both.
#[derive(Clone, Copy, Default)]
pub struct Visited {
    pub nodes: u64,
    pub row_words: u64,
    pub column_words: u64,
    pub candidate_bits: u64,
}

impl Add for Visited {
    ghost use Rattle.growth.specs.Visits.{together, Small};

    type Output = Visited;

    ghost can_add = { λ a b. Small (together a b) };

    ghost add_gives = { λ a b r. r ≡ together a b };

    fn add(self, other: Visited) -> Visited {
        Visited {
            nodes: self.nodes + other.nodes,
            row_words: self.row_words + other.row_words,
            column_words: self.column_words + other.column_words,
            candidate_bits: self.candidate_bits + other.candidate_bits,
        }
    }
}

// How many hops were made, which may be fewer than were asked, and what they visited.
#[derive(Clone, Copy)]
pub struct Grown {
    pub hops: u64,
    pub visits: Visited,
}
