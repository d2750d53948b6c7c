// The calls on one side of a topology with flat answers.
ghost use Rattle.std.specs.Prelude.{◌≡◌, ◌+◌, length};
ghost use Rattle.csr32.specs.Matrix.{stored};
ghost use Rattle.word.specs.declared.Operation.{Operation};
ghost use Rattle.side.specs.Check.{side_check};
ghost use Rattle.side.specs.Built.{built_ptr, built_words, built_masks};
ghost use Rattle.topology.specs.Answers.{build_check, sets_check, built_answer, stats_answer};
ghost use Rattle.hybit_matrix.specs.Flat.{pair_answer_of, flat_of_checked};
ghost use Rattle.hybit_matrix.specs.FlatTopology.{flat_of_stated, flat_of_built, pairs_by};

use crate::{Answer, Flat, PairAnswer, refused, views};
use base::Refusal;
use side::SideCounts;
use topology::AbtmTopologyStats;
use word::Operation;

// Counts, bytes and the three ratios; all 0 on a refusal.
#[repr(C)]
#[derive(Clone, Copy, Default)]
pub struct TopologyStatsAnswer {
    pub number: u32,
    pub present: bool,
    pub expected: u64,
    pub actual: u64,
    pub nrows: u64,
    pub ncols: u64,
    pub structural_nnz: u64,
    pub nonempty_words: u64,
    pub metadata_bytes: u64,
    pub average_word_nnz: f64,
    pub word_fill_ratio: f64,
    pub metadata_bytes_per_nnz: f64,
}

impl From<Result<AbtmTopologyStats, Refusal>> for TopologyStatsAnswer {
    ghost from_gives = { λ r a. a ≡ flat_of_stated r };

    #[tactic(auto, unfolding(crate::specs::FlatTopology::flat_of_stated))]
    fn from(s: Result<AbtmTopologyStats, Refusal>) -> Self {
        match s {
            Ok(x) => Self {
                present: true,
                nrows: x.nrows as u64,
                ncols: x.ncols as u64,
                structural_nnz: x.structural_nnz as u64,
                nonempty_words: x.nonempty_words as u64,
                metadata_bytes: x.metadata_bytes as u64,
                average_word_nnz: x.average_word_nnz(),
                word_fill_ratio: x.word_fill_ratio(),
                metadata_bytes_per_nnz: x.metadata_bytes_per_nnz(),
                ..Self::default()
            },
            Err(r) => refused!(r),
        }
    }
}

// first and second: words and pairs.
impl Flat<PairAnswer> for SideCounts {
    ghost flat_record = { λ x. pair_answer_of x.words x.pairs };

    fn flat(self) -> PairAnswer {
        (self.words, self.pairs).flat()
    }
}

// Checks one side: 1, 9.
pub fn hybit_topology_validate(
    nrows: usize,
    ncols: usize,
    row_word_ptr: &[u32],
    word_indices: &[u32],
    masks: &[u64],
    structural_nnz: usize,
) -> Answer
    ensures { result ≡ flat_of_checked (side_check nrows ncols row_word_ptr.now word_indices.now masks.now structural_nnz) }
{
    views::side(
        nrows,
        ncols,
        row_word_ptr,
        word_indices,
        masks,
        structural_nnz,
    )
    .validate()
    .into()
}

// Counts, bytes and ratios of one side. Refuses 1, 9.
pub fn hybit_topology_stats(
    nrows: usize,
    ncols: usize,
    row_word_ptr: &[u32],
    word_indices: &[u32],
    masks: &[u64],
    structural_nnz: usize,
) -> TopologyStatsAnswer
    ensures { result ≡ flat_of_stated (stats_answer nrows ncols row_word_ptr.now word_indices.now masks.now structural_nnz) }
{
    topology::stats(views::side(
        nrows,
        ncols,
        row_word_ptr,
        word_indices,
        masks,
        structural_nnz,
    ))
    .into()
}

// One side of a matrix's pairs: the lists need nrows + 1 pointers and as many words as entries, zero past its own; first and second: words and
// pairs. Refuses 1 to 8, 25.
pub fn hybit_topology_from_csr32(
    nrows: usize,
    ncols: usize,
    row_ptr: &[u32],
    col_idx: &[u32],
    values: &[f64],
    row_word_ptr: &mut [u32],
    word_indices: &mut [u32],
    masks: &mut [u64],
) -> PairAnswer
    ensures value { result ≡ flat_of_built (built_answer (build_check nrows ncols row_ptr.now col_idx.now values.now row_word_ptr.old word_indices.old masks.old) nrows ncols (stored row_ptr.now col_idx.now)) }
    ensures pointers { row_word_ptr.new ≡ built_ptr (build_check nrows ncols row_ptr.now col_idx.now values.now row_word_ptr.old word_indices.old masks.old) nrows ncols (stored row_ptr.now col_idx.now) row_word_ptr.old }
    ensures words { word_indices.new ≡ built_words (build_check nrows ncols row_ptr.now col_idx.now values.now row_word_ptr.old word_indices.old masks.old) nrows ncols (stored row_ptr.now col_idx.now) (length col_idx.now) word_indices.old }
    ensures masked { masks.new ≡ built_masks (build_check nrows ncols row_ptr.now col_idx.now values.now row_word_ptr.old word_indices.old masks.old) nrows ncols (stored row_ptr.now col_idx.now) (length col_idx.now) masks.old }
{
    topology::from_csr32(
        views::matrix(nrows, ncols, row_ptr, col_idx, values),
        row_word_ptr,
        word_indices,
        masks,
    )
    .into()
}

// The four set operations stay one function each: C names each, and what they share is one function of topology.

// The pairs that both sides have: the lists need nrows + 1 pointers and as many words as both together, zero past its own; first and second:
// words and pairs. Refuses 1, 9 for each, 22, 25.
pub fn hybit_topology_intersection(
    nrows: usize,
    ncols: usize,
    ptr_a: &[u32],
    words_a: &[u32],
    masks_a: &[u64],
    pairs_a: usize,
    nrows_b: usize,
    ncols_b: usize,
    ptr_b: &[u32],
    words_b: &[u32],
    masks_b: &[u64],
    pairs_b: usize,
    row_word_ptr: &mut [u32],
    word_indices: &mut [u32],
    masks: &mut [u64],
) -> PairAnswer
    ensures value { result ≡ flat_of_built (built_answer (sets_check nrows ncols ptr_a.now words_a.now masks_a.now pairs_a nrows_b ncols_b ptr_b.now words_b.now masks_b.now pairs_b row_word_ptr.old word_indices.old masks.old) nrows ncols (pairs_by Operation.Intersection ptr_a.now words_a.now masks_a.now ptr_b.now words_b.now masks_b.now)) }
    ensures pointers { row_word_ptr.new ≡ built_ptr (sets_check nrows ncols ptr_a.now words_a.now masks_a.now pairs_a nrows_b ncols_b ptr_b.now words_b.now masks_b.now pairs_b row_word_ptr.old word_indices.old masks.old) nrows ncols (pairs_by Operation.Intersection ptr_a.now words_a.now masks_a.now ptr_b.now words_b.now masks_b.now) row_word_ptr.old }
    ensures words { word_indices.new ≡ built_words (sets_check nrows ncols ptr_a.now words_a.now masks_a.now pairs_a nrows_b ncols_b ptr_b.now words_b.now masks_b.now pairs_b row_word_ptr.old word_indices.old masks.old) nrows ncols (pairs_by Operation.Intersection ptr_a.now words_a.now masks_a.now ptr_b.now words_b.now masks_b.now) (length masks_a.now + length masks_b.now) word_indices.old }
    ensures masked { masks.new ≡ built_masks (sets_check nrows ncols ptr_a.now words_a.now masks_a.now pairs_a nrows_b ncols_b ptr_b.now words_b.now masks_b.now pairs_b row_word_ptr.old word_indices.old masks.old) nrows ncols (pairs_by Operation.Intersection ptr_a.now words_a.now masks_a.now ptr_b.now words_b.now masks_b.now) (length masks_a.now + length masks_b.now) masks.old }
{
    topology::combine(
        views::side(nrows, ncols, ptr_a, words_a, masks_a, pairs_a),
        views::side(nrows_b, ncols_b, ptr_b, words_b, masks_b, pairs_b),
        Operation::Intersection,
        row_word_ptr,
        word_indices,
        masks,
    )
    .into()
}

// The pairs of either side; all else as the intersection.
pub fn hybit_topology_union(
    nrows: usize,
    ncols: usize,
    ptr_a: &[u32],
    words_a: &[u32],
    masks_a: &[u64],
    pairs_a: usize,
    nrows_b: usize,
    ncols_b: usize,
    ptr_b: &[u32],
    words_b: &[u32],
    masks_b: &[u64],
    pairs_b: usize,
    row_word_ptr: &mut [u32],
    word_indices: &mut [u32],
    masks: &mut [u64],
) -> PairAnswer
    ensures value { result ≡ flat_of_built (built_answer (sets_check nrows ncols ptr_a.now words_a.now masks_a.now pairs_a nrows_b ncols_b ptr_b.now words_b.now masks_b.now pairs_b row_word_ptr.old word_indices.old masks.old) nrows ncols (pairs_by Operation.Union ptr_a.now words_a.now masks_a.now ptr_b.now words_b.now masks_b.now)) }
    ensures pointers { row_word_ptr.new ≡ built_ptr (sets_check nrows ncols ptr_a.now words_a.now masks_a.now pairs_a nrows_b ncols_b ptr_b.now words_b.now masks_b.now pairs_b row_word_ptr.old word_indices.old masks.old) nrows ncols (pairs_by Operation.Union ptr_a.now words_a.now masks_a.now ptr_b.now words_b.now masks_b.now) row_word_ptr.old }
    ensures words { word_indices.new ≡ built_words (sets_check nrows ncols ptr_a.now words_a.now masks_a.now pairs_a nrows_b ncols_b ptr_b.now words_b.now masks_b.now pairs_b row_word_ptr.old word_indices.old masks.old) nrows ncols (pairs_by Operation.Union ptr_a.now words_a.now masks_a.now ptr_b.now words_b.now masks_b.now) (length masks_a.now + length masks_b.now) word_indices.old }
    ensures masked { masks.new ≡ built_masks (sets_check nrows ncols ptr_a.now words_a.now masks_a.now pairs_a nrows_b ncols_b ptr_b.now words_b.now masks_b.now pairs_b row_word_ptr.old word_indices.old masks.old) nrows ncols (pairs_by Operation.Union ptr_a.now words_a.now masks_a.now ptr_b.now words_b.now masks_b.now) (length masks_a.now + length masks_b.now) masks.old }
{
    topology::combine(
        views::side(nrows, ncols, ptr_a, words_a, masks_a, pairs_a),
        views::side(nrows_b, ncols_b, ptr_b, words_b, masks_b, pairs_b),
        Operation::Union,
        row_word_ptr,
        word_indices,
        masks,
    )
    .into()
}

// The pairs of the first side that the second lacks; all else as the intersection.
pub fn hybit_topology_and_not(
    nrows: usize,
    ncols: usize,
    ptr_a: &[u32],
    words_a: &[u32],
    masks_a: &[u64],
    pairs_a: usize,
    nrows_b: usize,
    ncols_b: usize,
    ptr_b: &[u32],
    words_b: &[u32],
    masks_b: &[u64],
    pairs_b: usize,
    row_word_ptr: &mut [u32],
    word_indices: &mut [u32],
    masks: &mut [u64],
) -> PairAnswer
    ensures value { result ≡ flat_of_built (built_answer (sets_check nrows ncols ptr_a.now words_a.now masks_a.now pairs_a nrows_b ncols_b ptr_b.now words_b.now masks_b.now pairs_b row_word_ptr.old word_indices.old masks.old) nrows ncols (pairs_by Operation.AndNot ptr_a.now words_a.now masks_a.now ptr_b.now words_b.now masks_b.now)) }
    ensures pointers { row_word_ptr.new ≡ built_ptr (sets_check nrows ncols ptr_a.now words_a.now masks_a.now pairs_a nrows_b ncols_b ptr_b.now words_b.now masks_b.now pairs_b row_word_ptr.old word_indices.old masks.old) nrows ncols (pairs_by Operation.AndNot ptr_a.now words_a.now masks_a.now ptr_b.now words_b.now masks_b.now) row_word_ptr.old }
    ensures words { word_indices.new ≡ built_words (sets_check nrows ncols ptr_a.now words_a.now masks_a.now pairs_a nrows_b ncols_b ptr_b.now words_b.now masks_b.now pairs_b row_word_ptr.old word_indices.old masks.old) nrows ncols (pairs_by Operation.AndNot ptr_a.now words_a.now masks_a.now ptr_b.now words_b.now masks_b.now) (length masks_a.now + length masks_b.now) word_indices.old }
    ensures masked { masks.new ≡ built_masks (sets_check nrows ncols ptr_a.now words_a.now masks_a.now pairs_a nrows_b ncols_b ptr_b.now words_b.now masks_b.now pairs_b row_word_ptr.old word_indices.old masks.old) nrows ncols (pairs_by Operation.AndNot ptr_a.now words_a.now masks_a.now ptr_b.now words_b.now masks_b.now) (length masks_a.now + length masks_b.now) masks.old }
{
    topology::combine(
        views::side(nrows, ncols, ptr_a, words_a, masks_a, pairs_a),
        views::side(nrows_b, ncols_b, ptr_b, words_b, masks_b, pairs_b),
        Operation::AndNot,
        row_word_ptr,
        word_indices,
        masks,
    )
    .into()
}

// The pairs that one side alone has; all else as the intersection.
pub fn hybit_topology_xor(
    nrows: usize,
    ncols: usize,
    ptr_a: &[u32],
    words_a: &[u32],
    masks_a: &[u64],
    pairs_a: usize,
    nrows_b: usize,
    ncols_b: usize,
    ptr_b: &[u32],
    words_b: &[u32],
    masks_b: &[u64],
    pairs_b: usize,
    row_word_ptr: &mut [u32],
    word_indices: &mut [u32],
    masks: &mut [u64],
) -> PairAnswer
    ensures value { result ≡ flat_of_built (built_answer (sets_check nrows ncols ptr_a.now words_a.now masks_a.now pairs_a nrows_b ncols_b ptr_b.now words_b.now masks_b.now pairs_b row_word_ptr.old word_indices.old masks.old) nrows ncols (pairs_by Operation.Xor ptr_a.now words_a.now masks_a.now ptr_b.now words_b.now masks_b.now)) }
    ensures pointers { row_word_ptr.new ≡ built_ptr (sets_check nrows ncols ptr_a.now words_a.now masks_a.now pairs_a nrows_b ncols_b ptr_b.now words_b.now masks_b.now pairs_b row_word_ptr.old word_indices.old masks.old) nrows ncols (pairs_by Operation.Xor ptr_a.now words_a.now masks_a.now ptr_b.now words_b.now masks_b.now) row_word_ptr.old }
    ensures words { word_indices.new ≡ built_words (sets_check nrows ncols ptr_a.now words_a.now masks_a.now pairs_a nrows_b ncols_b ptr_b.now words_b.now masks_b.now pairs_b row_word_ptr.old word_indices.old masks.old) nrows ncols (pairs_by Operation.Xor ptr_a.now words_a.now masks_a.now ptr_b.now words_b.now masks_b.now) (length masks_a.now + length masks_b.now) word_indices.old }
    ensures masked { masks.new ≡ built_masks (sets_check nrows ncols ptr_a.now words_a.now masks_a.now pairs_a nrows_b ncols_b ptr_b.now words_b.now masks_b.now pairs_b row_word_ptr.old word_indices.old masks.old) nrows ncols (pairs_by Operation.Xor ptr_a.now words_a.now masks_a.now ptr_b.now words_b.now masks_b.now) (length masks_a.now + length masks_b.now) masks.old }
{
    topology::combine(
        views::side(nrows, ncols, ptr_a, words_a, masks_a, pairs_a),
        views::side(nrows_b, ncols_b, ptr_b, words_b, masks_b, pairs_b),
        Operation::Xor,
        row_word_ptr,
        word_indices,
        masks,
    )
    .into()
}
