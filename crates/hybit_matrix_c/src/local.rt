// The calls of hybit_matrix::local, exported.
// Made by tools/exports from crates/hybit_matrix/src: do not edit.
ghost use Rattle.std.specs.Prelude.{◌≡◌};
ghost use Rattle.gather.specs.Gather.{gather_check, gather_answer, gather_left};
ghost use Rattle.hybit_matrix.specs.Flat.{flat_of_counted};
ghost use Rattle.hybit_matrix.specs.FlatLocal.{pattern_of, plan_of};

use hybit_matrix::Answer;
use hybit_matrix::local::{PatternAnswer, PlanAnswer};

// The local system's pattern: members, members + 1 row pointers, and one column for each pair inside. Refuses as the topology, 10, 11, 12 for
// the region, 25.
#[unsafe(no_mangle)]
pub extern "C" fn hybit_extract_local_submatrix_pattern(
    nrows: usize,
    ncols: usize,
    row_word_ptr: &[u32],
    row_word_indices: &[u32],
    row_masks: &[u64],
    structural_nnz: usize,
    column_nrows: usize,
    column_ncols: usize,
    column_word_ptr: &[u32],
    column_word_indices: &[u32],
    column_masks: &[u64],
    column_structural_nnz: usize,
    len: usize,
    words: &[u64],
    global_nodes: &mut [u32],
    row_ptr: &mut [u32],
    col_idx: &mut [u32],
) -> PatternAnswer
    ensures value { result ≡ (pattern_of nrows ncols row_word_ptr.now row_word_indices.now row_masks.now structural_nnz column_nrows column_ncols column_word_ptr.now column_word_indices.now column_masks.now column_structural_nnz len words.now global_nodes.old row_ptr.old col_idx.old).answer }
    ensures members { global_nodes.new ≡ (pattern_of nrows ncols row_word_ptr.now row_word_indices.now row_masks.now structural_nnz column_nrows column_ncols column_word_ptr.now column_word_indices.now column_masks.now column_structural_nnz len words.now global_nodes.old row_ptr.old col_idx.old).nodes }
    ensures pointers { row_ptr.new ≡ (pattern_of nrows ncols row_word_ptr.now row_word_indices.now row_masks.now structural_nnz column_nrows column_ncols column_word_ptr.now column_word_indices.now column_masks.now column_structural_nnz len words.now global_nodes.old row_ptr.old col_idx.old).ptr }
    ensures columns { col_idx.new ≡ (pattern_of nrows ncols row_word_ptr.now row_word_indices.now row_masks.now structural_nnz column_nrows column_ncols column_word_ptr.now column_word_indices.now column_masks.now column_structural_nnz len words.now global_nodes.old row_ptr.old col_idx.old).columns }
{
    hybit_matrix::local::hybit_extract_local_submatrix_pattern(
        nrows,
        ncols,
        row_word_ptr,
        row_word_indices,
        row_masks,
        structural_nnz,
        column_nrows,
        column_ncols,
        column_word_ptr,
        column_word_indices,
        column_masks,
        column_structural_nnz,
        len,
        words,
        global_nodes,
        row_ptr,
        col_idx,
    )
}

// Pattern and plan: the pattern's lists, pairs + 1 source pointers, and one source for each entry inside. Refuses as the matrix, the topology, 22,
// 10, 11, 12 for the region, by local row 23, 24, then 25.
#[unsafe(no_mangle)]
pub extern "C" fn hybit_prepare_local_numeric_plan(
    nrows: usize,
    ncols: usize,
    row_word_ptr: &[u32],
    row_word_indices: &[u32],
    row_masks: &[u64],
    structural_nnz: usize,
    column_nrows: usize,
    column_ncols: usize,
    column_word_ptr: &[u32],
    column_word_indices: &[u32],
    column_masks: &[u64],
    column_structural_nnz: usize,
    matrix_nrows: usize,
    matrix_ncols: usize,
    row_ptr: &[u32],
    col_idx: &[u32],
    values: &[f64],
    len: usize,
    words: &[u64],
    global_nodes: &mut [u32],
    local_row_ptr: &mut [u32],
    local_col_idx: &mut [u32],
    source_ptr: &mut [u32],
    source_indices: &mut [u32],
) -> PlanAnswer
    ensures value { result ≡ (plan_of nrows ncols row_word_ptr.now row_word_indices.now row_masks.now structural_nnz column_nrows column_ncols column_word_ptr.now column_word_indices.now column_masks.now column_structural_nnz matrix_nrows matrix_ncols row_ptr.now col_idx.now values.now len words.now global_nodes.old local_row_ptr.old local_col_idx.old source_ptr.old source_indices.old).answer }
    ensures members { global_nodes.new ≡ (plan_of nrows ncols row_word_ptr.now row_word_indices.now row_masks.now structural_nnz column_nrows column_ncols column_word_ptr.now column_word_indices.now column_masks.now column_structural_nnz matrix_nrows matrix_ncols row_ptr.now col_idx.now values.now len words.now global_nodes.old local_row_ptr.old local_col_idx.old source_ptr.old source_indices.old).nodes }
    ensures pointers { local_row_ptr.new ≡ (plan_of nrows ncols row_word_ptr.now row_word_indices.now row_masks.now structural_nnz column_nrows column_ncols column_word_ptr.now column_word_indices.now column_masks.now column_structural_nnz matrix_nrows matrix_ncols row_ptr.now col_idx.now values.now len words.now global_nodes.old local_row_ptr.old local_col_idx.old source_ptr.old source_indices.old).ptr }
    ensures columns { local_col_idx.new ≡ (plan_of nrows ncols row_word_ptr.now row_word_indices.now row_masks.now structural_nnz column_nrows column_ncols column_word_ptr.now column_word_indices.now column_masks.now column_structural_nnz matrix_nrows matrix_ncols row_ptr.now col_idx.now values.now len words.now global_nodes.old local_row_ptr.old local_col_idx.old source_ptr.old source_indices.old).columns }
    ensures starts { source_ptr.new ≡ (plan_of nrows ncols row_word_ptr.now row_word_indices.now row_masks.now structural_nnz column_nrows column_ncols column_word_ptr.now column_word_indices.now column_masks.now column_structural_nnz matrix_nrows matrix_ncols row_ptr.now col_idx.now values.now len words.now global_nodes.old local_row_ptr.old local_col_idx.old source_ptr.old source_indices.old).source_ptr }
    ensures sources { source_indices.new ≡ (plan_of nrows ncols row_word_ptr.now row_word_indices.now row_masks.now structural_nnz column_nrows column_ncols column_word_ptr.now column_word_indices.now column_masks.now column_structural_nnz matrix_nrows matrix_ncols row_ptr.now col_idx.now values.now len words.now global_nodes.old local_row_ptr.old local_col_idx.old source_ptr.old source_indices.old).sources }
{
    hybit_matrix::local::hybit_prepare_local_numeric_plan(
        nrows,
        ncols,
        row_word_ptr,
        row_word_indices,
        row_masks,
        structural_nnz,
        column_nrows,
        column_ncols,
        column_word_ptr,
        column_word_indices,
        column_masks,
        column_structural_nnz,
        matrix_nrows,
        matrix_ncols,
        row_ptr,
        col_idx,
        values,
        len,
        words,
        global_nodes,
        local_row_ptr,
        local_col_idx,
        source_ptr,
        source_indices,
    )
}

// One value for each pair of a plan in `out`; value: how many. `source_value_len`: the number of values that the plan was made for. Refuses 1,
// 26, 11, 8, 25.
#[unsafe(no_mangle)]
pub extern "C" fn hybit_gather_values(
    source_ptr: &[u32],
    source_indices: &[u32],
    source_value_len: usize,
    values: &[f64],
    out: &mut [f64],
) -> Answer
    ensures value { result ≡ flat_of_counted (gather_answer (gather_check source_ptr.now source_indices.now source_value_len values.now out.old) source_ptr.now) }
    ensures out_after { out.new ≡ gather_left (gather_check source_ptr.now source_indices.now source_value_len values.now out.old) source_ptr.now source_indices.now values.now out.old }
{
    hybit_matrix::local::hybit_gather_values(
        source_ptr,
        source_indices,
        source_value_len,
        values,
        out,
    )
}
