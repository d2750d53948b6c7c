// The calls of repeated::local, exported.
// Made by tools/exports from crates/repeated/src: do not edit.
ghost use Rattle.std.specs.Prelude.{◌≡◌};
ghost use Rattle.gather.specs.Gather.{gather_check, gather_answer, gather_left};
ghost use Rattle.repeated.specs.Repeated.{count_answer};
ghost use Rattle.repeated.specs.Lent.{pattern_of, plan_of};

use repeated::Answer;

// The value is the count of pairs.
#[unsafe(no_mangle)]
pub extern "C" fn hybit_repeated_pattern(
    nrows: usize,
    ncols: usize,
    row_word_ptr: &[u32],
    row_word_indices: &[u32],
    row_masks: &[u64],
    structural_nnz: usize,
    column_nrows: usize,
    column_ncols: usize,
    column_word_ptr: &[u32],
    column_word_indices: &[u32],
    column_masks: &[u64],
    column_structural_nnz: usize,
    len: usize,
    words: &[u64],
    times: u64,
    global_nodes: &mut [u32],
    row_ptr: &mut [u32],
    col_idx: &mut [u32],
) -> Answer
    ensures value { result ≡ (pattern_of nrows ncols row_word_ptr.now row_word_indices.now row_masks.now structural_nnz column_nrows column_ncols column_word_ptr.now column_word_indices.now column_masks.now column_structural_nnz len words.now global_nodes.old row_ptr.old col_idx.old).answer }
    ensures members { global_nodes.new ≡ (pattern_of nrows ncols row_word_ptr.now row_word_indices.now row_masks.now structural_nnz column_nrows column_ncols column_word_ptr.now column_word_indices.now column_masks.now column_structural_nnz len words.now global_nodes.old row_ptr.old col_idx.old).nodes }
    ensures pointers { row_ptr.new ≡ (pattern_of nrows ncols row_word_ptr.now row_word_indices.now row_masks.now structural_nnz column_nrows column_ncols column_word_ptr.now column_word_indices.now column_masks.now column_structural_nnz len words.now global_nodes.old row_ptr.old col_idx.old).ptr }
    ensures columns { col_idx.new ≡ (pattern_of nrows ncols row_word_ptr.now row_word_indices.now row_masks.now structural_nnz column_nrows column_ncols column_word_ptr.now column_word_indices.now column_masks.now column_structural_nnz len words.now global_nodes.old row_ptr.old col_idx.old).columns }
{
    repeated::local::hybit_repeated_pattern(
        nrows,
        ncols,
        row_word_ptr,
        row_word_indices,
        row_masks,
        structural_nnz,
        column_nrows,
        column_ncols,
        column_word_ptr,
        column_word_indices,
        column_masks,
        column_structural_nnz,
        len,
        words,
        times,
        global_nodes,
        row_ptr,
        col_idx,
    )
}

// The value is the count of sources.
#[unsafe(no_mangle)]
pub extern "C" fn hybit_repeated_plan(
    nrows: usize,
    ncols: usize,
    row_word_ptr: &[u32],
    row_word_indices: &[u32],
    row_masks: &[u64],
    structural_nnz: usize,
    column_nrows: usize,
    column_ncols: usize,
    column_word_ptr: &[u32],
    column_word_indices: &[u32],
    column_masks: &[u64],
    column_structural_nnz: usize,
    matrix_nrows: usize,
    matrix_ncols: usize,
    row_ptr: &[u32],
    col_idx: &[u32],
    values: &[f64],
    len: usize,
    words: &[u64],
    times: u64,
    global_nodes: &mut [u32],
    local_row_ptr: &mut [u32],
    local_col_idx: &mut [u32],
    source_ptr: &mut [u32],
    source_indices: &mut [u32],
) -> Answer
    ensures value { result ≡ (plan_of nrows ncols row_word_ptr.now row_word_indices.now row_masks.now structural_nnz column_nrows column_ncols column_word_ptr.now column_word_indices.now column_masks.now column_structural_nnz matrix_nrows matrix_ncols row_ptr.now col_idx.now values.now len words.now global_nodes.old local_row_ptr.old local_col_idx.old source_ptr.old source_indices.old).answer }
    ensures members { global_nodes.new ≡ (plan_of nrows ncols row_word_ptr.now row_word_indices.now row_masks.now structural_nnz column_nrows column_ncols column_word_ptr.now column_word_indices.now column_masks.now column_structural_nnz matrix_nrows matrix_ncols row_ptr.now col_idx.now values.now len words.now global_nodes.old local_row_ptr.old local_col_idx.old source_ptr.old source_indices.old).nodes }
    ensures pointers { local_row_ptr.new ≡ (plan_of nrows ncols row_word_ptr.now row_word_indices.now row_masks.now structural_nnz column_nrows column_ncols column_word_ptr.now column_word_indices.now column_masks.now column_structural_nnz matrix_nrows matrix_ncols row_ptr.now col_idx.now values.now len words.now global_nodes.old local_row_ptr.old local_col_idx.old source_ptr.old source_indices.old).ptr }
    ensures columns { local_col_idx.new ≡ (plan_of nrows ncols row_word_ptr.now row_word_indices.now row_masks.now structural_nnz column_nrows column_ncols column_word_ptr.now column_word_indices.now column_masks.now column_structural_nnz matrix_nrows matrix_ncols row_ptr.now col_idx.now values.now len words.now global_nodes.old local_row_ptr.old local_col_idx.old source_ptr.old source_indices.old).columns }
    ensures starts { source_ptr.new ≡ (plan_of nrows ncols row_word_ptr.now row_word_indices.now row_masks.now structural_nnz column_nrows column_ncols column_word_ptr.now column_word_indices.now column_masks.now column_structural_nnz matrix_nrows matrix_ncols row_ptr.now col_idx.now values.now len words.now global_nodes.old local_row_ptr.old local_col_idx.old source_ptr.old source_indices.old).source_ptr }
    ensures sources { source_indices.new ≡ (plan_of nrows ncols row_word_ptr.now row_word_indices.now row_masks.now structural_nnz column_nrows column_ncols column_word_ptr.now column_word_indices.now column_masks.now column_structural_nnz matrix_nrows matrix_ncols row_ptr.now col_idx.now values.now len words.now global_nodes.old local_row_ptr.old local_col_idx.old source_ptr.old source_indices.old).sources }
{
    repeated::local::hybit_repeated_plan(
        nrows,
        ncols,
        row_word_ptr,
        row_word_indices,
        row_masks,
        structural_nnz,
        column_nrows,
        column_ncols,
        column_word_ptr,
        column_word_indices,
        column_masks,
        column_structural_nnz,
        matrix_nrows,
        matrix_ncols,
        row_ptr,
        col_idx,
        values,
        len,
        words,
        times,
        global_nodes,
        local_row_ptr,
        local_col_idx,
        source_ptr,
        source_indices,
    )
}

// The value is the count of pairs.
#[unsafe(no_mangle)]
pub extern "C" fn hybit_repeated_gather(
    source_ptr: &[u32],
    source_indices: &[u32],
    source_value_len: usize,
    values: &[f64],
    times: u64,
    out: &mut [f64],
) -> Answer
    ensures value { result ≡ count_answer (gather_answer (gather_check source_ptr.now source_indices.now source_value_len values.now out.old) source_ptr.now) }
    ensures out_after { out.new ≡ gather_left (gather_check source_ptr.now source_indices.now source_value_len values.now out.old) source_ptr.now source_indices.now values.now out.old }
{
    repeated::local::hybit_repeated_gather(
        source_ptr,
        source_indices,
        source_value_len,
        values,
        times,
        out,
    )
}
