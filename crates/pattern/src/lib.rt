// The local system of a region, region.rs of the Rust: its members, and each stored pair with both ends inside once, numbered by member.
#![tactic(auto)]

ghost use Rattle.std.specs.Prelude.{◌≡◌};
ghost use Rattle.mask.specs.Mask.{in_mask};
ghost use Rattle.side.specs.Views.{holds};
ghost use Rattle.pattern.specs.Pattern.{pattern_answer, nodes_left, ptr_left, columns_left, pruning_ratio, average_row_nnz};
ghost use Rattle.pattern.specs.Views.{check_pattern};

use base::Refusal;
use dual_topology::AbtmDualTopology;
use inner::{Local, Room};
use mask::DofMask;
use std::ops::Add;

pub mod inner;

#[derive(Clone, Copy)]
pub struct AbtmLocalSubmatrixPatternStats {
    pub global_nodes: u32,
    pub local_nodes: u32,
    pub local_nnz: u32,
    pub topology_words_visited: u32,
    pub candidate_neighbor_bits: u32,
    pub kept_neighbor_bits: u32,
    pub mapping_scratch_bytes: u32,
    pub pattern_bytes: u32,
}

// What rows hold: how many words, their set bits, and those inside the region.
#[derive(Clone, Copy, Default)]
pub struct RowKept {
    pub words: usize,
    pub candidates: usize,
    pub kept: usize,
}

impl Add for RowKept {
    ghost use Rattle.pattern.specs.Steps.{together, Few};

    type Output = RowKept;

    ghost can_add = { λ a b. Few (together a b) };

    ghost add_gives = { λ a b r. r ≡ together a b };

    fn add(self, other: RowKept) -> RowKept {
        RowKept {
            words: self.words + other.words,
            candidates: self.candidates + other.candidates,
            kept: self.kept + other.kept,
        }
    }
}

// How many members there are, and what their rows hold. With `binding::Counts` no one generic struct: nothing is written for both, so that each
// contract would name the type of the rows for no gain.
#[derive(Clone, Copy)]
pub struct RegionKept {
    pub members: usize,
    pub rows: RowKept,
}

impl AbtmLocalSubmatrixPatternStats {
    pub fn structural_pruning_ratio(self) -> f64
        ensures { result ≡ pruning_ratio self }
    {
        if self.candidate_neighbor_bits == 0 {
            0.0
        } else {
            1.0 - topology::inner::ratio(
                self.kept_neighbor_bits as u64,
                self.candidate_neighbor_bits as u64,
            )
        }
    }

    pub fn average_local_row_nnz(self) -> f64
        ensures { result ≡ average_row_nnz self }
    {
        topology::inner::ratio(self.local_nnz as u64, self.local_nodes as u64)
    }
}

// The members of the region in rising order, and the stored pairs inside it by row, then by rising column.
pub fn extract_local_submatrix_pattern<'a>(
    topology: AbtmDualTopology<'a>,
    region: DofMask<'a>,
    global_nodes: &mut [u32],
    row_ptr: &mut [u32],
    col_idx: &mut [u32],
) -> Result<AbtmLocalSubmatrixPatternStats, Refusal>
    ensures value { result ≡ pattern_answer (check_pattern topology.entry region.entry global_nodes.old row_ptr.old col_idx.old) topology.entry.rows.nrows (in_mask region.entry.words.now) (holds topology.entry.rows) }
    ensures members { global_nodes.new ≡ nodes_left (check_pattern topology.entry region.entry global_nodes.old row_ptr.old col_idx.old) topology.entry.rows.nrows (in_mask region.entry.words.now) global_nodes.old }
    ensures pointers { row_ptr.new ≡ ptr_left (check_pattern topology.entry region.entry global_nodes.old row_ptr.old col_idx.old) topology.entry.rows.nrows (in_mask region.entry.words.now) (holds topology.entry.rows) row_ptr.old }
    ensures columns { col_idx.new ≡ columns_left (check_pattern topology.entry region.entry global_nodes.old row_ptr.old col_idx.old) topology.entry.rows.nrows (in_mask region.entry.words.now) (holds topology.entry.rows) col_idx.old }
{
    let topology = topology.accept()?;
    let local = Local::of(topology.rows, region)?;
    let kept = local.count();
    let room = Room {
        nodes: global_nodes.len(),
        pointers: row_ptr.len(),
        columns: col_idx.len(),
    };
    inner::check_room(kept.members, kept.rows.kept, room)?;
    local.write(global_nodes, row_ptr, col_idx);
    Ok(inner::stats(local.region.len, kept))
}
