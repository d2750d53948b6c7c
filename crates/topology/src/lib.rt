// One side of a topology, `AbtmTopology` of the Rust: its check, its statistics, building it from a matrix, and set operations on two sides.
#![tactic(auto)]

ghost use Rattle.std.specs.Prelude.{◌≡◌, ◌+◌, length};
ghost use Rattle.csr32.specs.Views.{stores};
ghost use Rattle.word.specs.Answers.{on};
ghost use Rattle.side.specs.Views.{holds};
ghost use Rattle.side.specs.Built.{built_ptr, built_words, built_masks};
ghost use Rattle.side_sets.specs.Sets.{pairwise_pairs};
ghost use Rattle.topology.specs.Statistics.{average_nnz_of_word, fill_ratio_of_words, bytes_per_nnz};
ghost use Rattle.topology.specs.Answers.{built_answer};
ghost use Rattle.topology.specs.Views.{answer_stats, check_build, check_sets};

use base::Refusal;
use csr32::Csr32Matrix;
use side::{AbtmTopology, SideCounts};
use word::{AbtmTopologyWord, Operation};

pub mod inner;

// 32 bits hold each of these of an accepted side, so the ratios ask nothing of their caller.
#[derive(Clone, Copy)]
pub struct AbtmTopologyStats {
    pub nrows: u32,
    pub ncols: u32,
    pub structural_nnz: u32,
    pub nonempty_words: u32,
    pub metadata_bytes: u32,
}

impl AbtmTopologyStats {
    pub fn average_word_nnz(self) -> f64
        ensures { result ≡ average_nnz_of_word self }
    {
        inner::ratio(self.structural_nnz as u64, self.nonempty_words as u64)
    }

    pub fn word_fill_ratio(self) -> f64
        ensures { result ≡ fill_ratio_of_words self }
    {
        self.average_word_nnz() / (AbtmTopologyWord::BITS as f64)
    }

    pub fn metadata_bytes_per_nnz(self) -> f64
        ensures { result ≡ bytes_per_nnz self }
    {
        inner::ratio(self.metadata_bytes as u64, self.structural_nnz as u64)
    }
}

#[tactic(auto, using(base::proofs::Checks::checks))]
pub fn stats(topology: AbtmTopology) -> Result<AbtmTopologyStats, Refusal>
    ensures { result ≡ answer_stats topology.entry }
{
    topology.validate()?;
    Ok(AbtmTopologyStats {
        nrows: topology.nrows as u32,
        ncols: topology.ncols as u32,
        structural_nnz: topology.structural_nnz as u32,
        nonempty_words: topology.masks.len() as u32,
        metadata_bytes: inner::metadata_bytes(topology.nrows, topology.masks.len() as u64),
    })
}

// The side of the matrix's pairs; an entry that repeats is one pair. Lists that are written are handed in one by one: each has an equation, and in a
// struct behind `&mut` each contract would say besides that the references stay.
#[tactic(auto, using(base::proofs::Checks::checks), unfolding(crate::specs::Answers::build_check))]
pub fn from_csr32(
    matrix: Csr32Matrix,
    row_word_ptr: &mut [u32],
    word_indices: &mut [u32],
    masks: &mut [u64],
) -> Result<SideCounts, Refusal>
    ensures value { result ≡ built_answer (check_build matrix.entry row_word_ptr.old word_indices.old masks.old) matrix.entry.nrows matrix.entry.ncols (stores matrix.entry) }
    ensures pointers { row_word_ptr.new ≡ built_ptr (check_build matrix.entry row_word_ptr.old word_indices.old masks.old) matrix.entry.nrows matrix.entry.ncols (stores matrix.entry) row_word_ptr.old }
    ensures words { word_indices.new ≡ built_words (check_build matrix.entry row_word_ptr.old word_indices.old masks.old) matrix.entry.nrows matrix.entry.ncols (stores matrix.entry) (length matrix.entry.col_idx.now) word_indices.old }
    ensures masked { masks.new ≡ built_masks (check_build matrix.entry row_word_ptr.old word_indices.old masks.old) matrix.entry.nrows matrix.entry.ncols (stores matrix.entry) (length matrix.entry.col_idx.now) masks.old }
{
    let accepted = matrix.accept()?;
    side::inner::check_room(
        matrix.nrows,
        matrix.col_idx.len(),
        row_word_ptr.len(),
        word_indices.len(),
        masks.len(),
    )?;
    Ok(side_build::inner::build_side(accepted, row_word_ptr, word_indices, masks))
}

// The pairs that the operation takes of those of both sides; as many words as both have together are needed.
#[tactic(auto, using(base::proofs::Checks::checks), unfolding(crate::specs::Answers::sets_check))]
pub fn combine(
    a: AbtmTopology,
    b: AbtmTopology,
    op: Operation,
    row_word_ptr: &mut [u32],
    word_indices: &mut [u32],
    masks: &mut [u64],
) -> Result<SideCounts, Refusal>
    ensures value { result ≡ built_answer (check_sets a.entry b.entry row_word_ptr.old word_indices.old masks.old) a.entry.nrows a.entry.ncols (pairwise_pairs (on op) (holds a.entry) (holds b.entry)) }
    ensures pointers { row_word_ptr.new ≡ built_ptr (check_sets a.entry b.entry row_word_ptr.old word_indices.old masks.old) a.entry.nrows a.entry.ncols (pairwise_pairs (on op) (holds a.entry) (holds b.entry)) row_word_ptr.old }
    ensures words { word_indices.new ≡ built_words (check_sets a.entry b.entry row_word_ptr.old word_indices.old masks.old) a.entry.nrows a.entry.ncols (pairwise_pairs (on op) (holds a.entry) (holds b.entry)) (length a.entry.masks.now + length b.entry.masks.now) word_indices.old }
    ensures masked { masks.new ≡ built_masks (check_sets a.entry b.entry row_word_ptr.old word_indices.old masks.old) a.entry.nrows a.entry.ncols (pairwise_pairs (on op) (holds a.entry) (holds b.entry)) (length a.entry.masks.now + length b.entry.masks.now) masks.old }
{
    let left = a.accept()?;
    let right = b.accept()?;
    if b.nrows != a.nrows || b.ncols != a.ncols {
        return Err(Refusal::SidesDiffer);
    }
    side::inner::check_room(
        a.nrows,
        a.masks.len() + b.masks.len(),
        row_word_ptr.len(),
        word_indices.len(),
        masks.len(),
    )?;
    Ok(side_sets::inner::combine(left, right, op, row_word_ptr, word_indices, masks))
}
