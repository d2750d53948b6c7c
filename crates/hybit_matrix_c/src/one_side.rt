// The calls of hybit_matrix::one_side, exported.
// Made by tools/exports from crates/hybit_matrix/src: do not edit.
ghost use Rattle.std.specs.Prelude.{◌≡◌, ◌+◌, length};
ghost use Rattle.csr32.specs.Matrix.{stored};
ghost use Rattle.word.specs.declared.Operation.{Operation};
ghost use Rattle.side.specs.Check.{side_check};
ghost use Rattle.side.specs.Built.{built_ptr, built_words, built_masks};
ghost use Rattle.topology.specs.Answers.{build_check, sets_check, built_answer, stats_answer};
ghost use Rattle.hybit_matrix.specs.Flat.{flat_of_checked};
ghost use Rattle.hybit_matrix.specs.FlatTopology.{flat_of_stated, flat_of_built, pairs_by};

use hybit_matrix::one_side::TopologyStatsAnswer;
use hybit_matrix::{Answer, PairAnswer};

// Checks one side: 1, 9.
#[unsafe(no_mangle)]
pub extern "C" fn hybit_topology_validate(
    nrows: usize,
    ncols: usize,
    row_word_ptr: &[u32],
    word_indices: &[u32],
    masks: &[u64],
    structural_nnz: usize,
) -> Answer
    ensures { result ≡ flat_of_checked (side_check nrows ncols row_word_ptr.now word_indices.now masks.now structural_nnz) }
{
    hybit_matrix::one_side::hybit_topology_validate(
        nrows,
        ncols,
        row_word_ptr,
        word_indices,
        masks,
        structural_nnz,
    )
}

// Counts, bytes and ratios of one side. Refuses 1, 9.
#[unsafe(no_mangle)]
pub extern "C" fn hybit_topology_stats(
    nrows: usize,
    ncols: usize,
    row_word_ptr: &[u32],
    word_indices: &[u32],
    masks: &[u64],
    structural_nnz: usize,
) -> TopologyStatsAnswer
    ensures { result ≡ flat_of_stated (stats_answer nrows ncols row_word_ptr.now word_indices.now masks.now structural_nnz) }
{
    hybit_matrix::one_side::hybit_topology_stats(
        nrows,
        ncols,
        row_word_ptr,
        word_indices,
        masks,
        structural_nnz,
    )
}

// One side of a matrix's pairs: the lists need nrows + 1 pointers and as many words as entries, zero past its own; first and second: words and
// pairs. Refuses 1 to 8, 25.
#[unsafe(no_mangle)]
pub extern "C" fn hybit_topology_from_csr32(
    nrows: usize,
    ncols: usize,
    row_ptr: &[u32],
    col_idx: &[u32],
    values: &[f64],
    row_word_ptr: &mut [u32],
    word_indices: &mut [u32],
    masks: &mut [u64],
) -> PairAnswer
    ensures value { result ≡ flat_of_built (built_answer (build_check nrows ncols row_ptr.now col_idx.now values.now row_word_ptr.old word_indices.old masks.old) nrows ncols (stored row_ptr.now col_idx.now)) }
    ensures pointers { row_word_ptr.new ≡ built_ptr (build_check nrows ncols row_ptr.now col_idx.now values.now row_word_ptr.old word_indices.old masks.old) nrows ncols (stored row_ptr.now col_idx.now) row_word_ptr.old }
    ensures words { word_indices.new ≡ built_words (build_check nrows ncols row_ptr.now col_idx.now values.now row_word_ptr.old word_indices.old masks.old) nrows ncols (stored row_ptr.now col_idx.now) (length col_idx.now) word_indices.old }
    ensures masked { masks.new ≡ built_masks (build_check nrows ncols row_ptr.now col_idx.now values.now row_word_ptr.old word_indices.old masks.old) nrows ncols (stored row_ptr.now col_idx.now) (length col_idx.now) masks.old }
{
    hybit_matrix::one_side::hybit_topology_from_csr32(
        nrows,
        ncols,
        row_ptr,
        col_idx,
        values,
        row_word_ptr,
        word_indices,
        masks,
    )
}

// The pairs that both sides have: the lists need nrows + 1 pointers and as many words as both together, zero past its own; first and second:
// words and pairs. Refuses 1, 9 for each, 22, 25.
#[unsafe(no_mangle)]
pub extern "C" fn hybit_topology_intersection(
    nrows: usize,
    ncols: usize,
    ptr_a: &[u32],
    words_a: &[u32],
    masks_a: &[u64],
    pairs_a: usize,
    nrows_b: usize,
    ncols_b: usize,
    ptr_b: &[u32],
    words_b: &[u32],
    masks_b: &[u64],
    pairs_b: usize,
    row_word_ptr: &mut [u32],
    word_indices: &mut [u32],
    masks: &mut [u64],
) -> PairAnswer
    ensures value { result ≡ flat_of_built (built_answer (sets_check nrows ncols ptr_a.now words_a.now masks_a.now pairs_a nrows_b ncols_b ptr_b.now words_b.now masks_b.now pairs_b row_word_ptr.old word_indices.old masks.old) nrows ncols (pairs_by Operation.Intersection ptr_a.now words_a.now masks_a.now ptr_b.now words_b.now masks_b.now)) }
    ensures pointers { row_word_ptr.new ≡ built_ptr (sets_check nrows ncols ptr_a.now words_a.now masks_a.now pairs_a nrows_b ncols_b ptr_b.now words_b.now masks_b.now pairs_b row_word_ptr.old word_indices.old masks.old) nrows ncols (pairs_by Operation.Intersection ptr_a.now words_a.now masks_a.now ptr_b.now words_b.now masks_b.now) row_word_ptr.old }
    ensures words { word_indices.new ≡ built_words (sets_check nrows ncols ptr_a.now words_a.now masks_a.now pairs_a nrows_b ncols_b ptr_b.now words_b.now masks_b.now pairs_b row_word_ptr.old word_indices.old masks.old) nrows ncols (pairs_by Operation.Intersection ptr_a.now words_a.now masks_a.now ptr_b.now words_b.now masks_b.now) (length masks_a.now + length masks_b.now) word_indices.old }
    ensures masked { masks.new ≡ built_masks (sets_check nrows ncols ptr_a.now words_a.now masks_a.now pairs_a nrows_b ncols_b ptr_b.now words_b.now masks_b.now pairs_b row_word_ptr.old word_indices.old masks.old) nrows ncols (pairs_by Operation.Intersection ptr_a.now words_a.now masks_a.now ptr_b.now words_b.now masks_b.now) (length masks_a.now + length masks_b.now) masks.old }
{
    hybit_matrix::one_side::hybit_topology_intersection(
        nrows,
        ncols,
        ptr_a,
        words_a,
        masks_a,
        pairs_a,
        nrows_b,
        ncols_b,
        ptr_b,
        words_b,
        masks_b,
        pairs_b,
        row_word_ptr,
        word_indices,
        masks,
    )
}

// The pairs of either side; all else as the intersection.
#[unsafe(no_mangle)]
pub extern "C" fn hybit_topology_union(
    nrows: usize,
    ncols: usize,
    ptr_a: &[u32],
    words_a: &[u32],
    masks_a: &[u64],
    pairs_a: usize,
    nrows_b: usize,
    ncols_b: usize,
    ptr_b: &[u32],
    words_b: &[u32],
    masks_b: &[u64],
    pairs_b: usize,
    row_word_ptr: &mut [u32],
    word_indices: &mut [u32],
    masks: &mut [u64],
) -> PairAnswer
    ensures value { result ≡ flat_of_built (built_answer (sets_check nrows ncols ptr_a.now words_a.now masks_a.now pairs_a nrows_b ncols_b ptr_b.now words_b.now masks_b.now pairs_b row_word_ptr.old word_indices.old masks.old) nrows ncols (pairs_by Operation.Union ptr_a.now words_a.now masks_a.now ptr_b.now words_b.now masks_b.now)) }
    ensures pointers { row_word_ptr.new ≡ built_ptr (sets_check nrows ncols ptr_a.now words_a.now masks_a.now pairs_a nrows_b ncols_b ptr_b.now words_b.now masks_b.now pairs_b row_word_ptr.old word_indices.old masks.old) nrows ncols (pairs_by Operation.Union ptr_a.now words_a.now masks_a.now ptr_b.now words_b.now masks_b.now) row_word_ptr.old }
    ensures words { word_indices.new ≡ built_words (sets_check nrows ncols ptr_a.now words_a.now masks_a.now pairs_a nrows_b ncols_b ptr_b.now words_b.now masks_b.now pairs_b row_word_ptr.old word_indices.old masks.old) nrows ncols (pairs_by Operation.Union ptr_a.now words_a.now masks_a.now ptr_b.now words_b.now masks_b.now) (length masks_a.now + length masks_b.now) word_indices.old }
    ensures masked { masks.new ≡ built_masks (sets_check nrows ncols ptr_a.now words_a.now masks_a.now pairs_a nrows_b ncols_b ptr_b.now words_b.now masks_b.now pairs_b row_word_ptr.old word_indices.old masks.old) nrows ncols (pairs_by Operation.Union ptr_a.now words_a.now masks_a.now ptr_b.now words_b.now masks_b.now) (length masks_a.now + length masks_b.now) masks.old }
{
    hybit_matrix::one_side::hybit_topology_union(
        nrows,
        ncols,
        ptr_a,
        words_a,
        masks_a,
        pairs_a,
        nrows_b,
        ncols_b,
        ptr_b,
        words_b,
        masks_b,
        pairs_b,
        row_word_ptr,
        word_indices,
        masks,
    )
}

// The pairs of the first side that the second lacks; all else as the intersection.
#[unsafe(no_mangle)]
pub extern "C" fn hybit_topology_and_not(
    nrows: usize,
    ncols: usize,
    ptr_a: &[u32],
    words_a: &[u32],
    masks_a: &[u64],
    pairs_a: usize,
    nrows_b: usize,
    ncols_b: usize,
    ptr_b: &[u32],
    words_b: &[u32],
    masks_b: &[u64],
    pairs_b: usize,
    row_word_ptr: &mut [u32],
    word_indices: &mut [u32],
    masks: &mut [u64],
) -> PairAnswer
    ensures value { result ≡ flat_of_built (built_answer (sets_check nrows ncols ptr_a.now words_a.now masks_a.now pairs_a nrows_b ncols_b ptr_b.now words_b.now masks_b.now pairs_b row_word_ptr.old word_indices.old masks.old) nrows ncols (pairs_by Operation.AndNot ptr_a.now words_a.now masks_a.now ptr_b.now words_b.now masks_b.now)) }
    ensures pointers { row_word_ptr.new ≡ built_ptr (sets_check nrows ncols ptr_a.now words_a.now masks_a.now pairs_a nrows_b ncols_b ptr_b.now words_b.now masks_b.now pairs_b row_word_ptr.old word_indices.old masks.old) nrows ncols (pairs_by Operation.AndNot ptr_a.now words_a.now masks_a.now ptr_b.now words_b.now masks_b.now) row_word_ptr.old }
    ensures words { word_indices.new ≡ built_words (sets_check nrows ncols ptr_a.now words_a.now masks_a.now pairs_a nrows_b ncols_b ptr_b.now words_b.now masks_b.now pairs_b row_word_ptr.old word_indices.old masks.old) nrows ncols (pairs_by Operation.AndNot ptr_a.now words_a.now masks_a.now ptr_b.now words_b.now masks_b.now) (length masks_a.now + length masks_b.now) word_indices.old }
    ensures masked { masks.new ≡ built_masks (sets_check nrows ncols ptr_a.now words_a.now masks_a.now pairs_a nrows_b ncols_b ptr_b.now words_b.now masks_b.now pairs_b row_word_ptr.old word_indices.old masks.old) nrows ncols (pairs_by Operation.AndNot ptr_a.now words_a.now masks_a.now ptr_b.now words_b.now masks_b.now) (length masks_a.now + length masks_b.now) masks.old }
{
    hybit_matrix::one_side::hybit_topology_and_not(
        nrows,
        ncols,
        ptr_a,
        words_a,
        masks_a,
        pairs_a,
        nrows_b,
        ncols_b,
        ptr_b,
        words_b,
        masks_b,
        pairs_b,
        row_word_ptr,
        word_indices,
        masks,
    )
}

// The pairs that one side alone has; all else as the intersection.
#[unsafe(no_mangle)]
pub extern "C" fn hybit_topology_xor(
    nrows: usize,
    ncols: usize,
    ptr_a: &[u32],
    words_a: &[u32],
    masks_a: &[u64],
    pairs_a: usize,
    nrows_b: usize,
    ncols_b: usize,
    ptr_b: &[u32],
    words_b: &[u32],
    masks_b: &[u64],
    pairs_b: usize,
    row_word_ptr: &mut [u32],
    word_indices: &mut [u32],
    masks: &mut [u64],
) -> PairAnswer
    ensures value { result ≡ flat_of_built (built_answer (sets_check nrows ncols ptr_a.now words_a.now masks_a.now pairs_a nrows_b ncols_b ptr_b.now words_b.now masks_b.now pairs_b row_word_ptr.old word_indices.old masks.old) nrows ncols (pairs_by Operation.Xor ptr_a.now words_a.now masks_a.now ptr_b.now words_b.now masks_b.now)) }
    ensures pointers { row_word_ptr.new ≡ built_ptr (sets_check nrows ncols ptr_a.now words_a.now masks_a.now pairs_a nrows_b ncols_b ptr_b.now words_b.now masks_b.now pairs_b row_word_ptr.old word_indices.old masks.old) nrows ncols (pairs_by Operation.Xor ptr_a.now words_a.now masks_a.now ptr_b.now words_b.now masks_b.now) row_word_ptr.old }
    ensures words { word_indices.new ≡ built_words (sets_check nrows ncols ptr_a.now words_a.now masks_a.now pairs_a nrows_b ncols_b ptr_b.now words_b.now masks_b.now pairs_b row_word_ptr.old word_indices.old masks.old) nrows ncols (pairs_by Operation.Xor ptr_a.now words_a.now masks_a.now ptr_b.now words_b.now masks_b.now) (length masks_a.now + length masks_b.now) word_indices.old }
    ensures masked { masks.new ≡ built_masks (sets_check nrows ncols ptr_a.now words_a.now masks_a.now pairs_a nrows_b ncols_b ptr_b.now words_b.now masks_b.now pairs_b row_word_ptr.old word_indices.old masks.old) nrows ncols (pairs_by Operation.Xor ptr_a.now words_a.now masks_a.now ptr_b.now words_b.now masks_b.now) (length masks_a.now + length masks_b.now) masks.old }
{
    hybit_matrix::one_side::hybit_topology_xor(
        nrows,
        ncols,
        ptr_a,
        words_a,
        masks_a,
        pairs_a,
        nrows_b,
        ncols_b,
        ptr_b,
        words_b,
        masks_b,
        pairs_b,
        row_word_ptr,
        word_indices,
        masks,
    )
}
