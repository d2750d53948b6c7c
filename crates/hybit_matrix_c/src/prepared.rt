// The calls of hybit_matrix::prepared, exported.
// Made by tools/exports from crates/hybit_matrix/src: do not edit.
ghost use Rattle.std.specs.Prelude.{◌≡◌};
ghost use Rattle.csr32.specs.Matrix.{matrix_check};
ghost use Rattle.dof_layout.specs.Answers.{square_check};
ghost use Rattle.field_region.specs.Owners.{owners_check, owners_answer, owners_list};
ghost use Rattle.prepared_field_region.specs.Prepared.{block_owners_check};
ghost use Rattle.job_text.specs.Answer.{text_answer, text_left};
ghost use Rattle.peak_job.specs.Answer.{answer_text};
ghost use Rattle.hybit_matrix.specs.Flat.{flat_of_counted};
ghost use Rattle.hybit_matrix.specs.FlatPrepared.{prepared_region};

use hybit_matrix::Answer;
use hybit_matrix::prepared::PreparedAnswer;

// Topology, region, pattern and plan of a matrix, a layout and seeds in one call. Each side's pointers and words, `starts` and `order` as in
// building; three masks; side members, side + 1 row pointers, as many columns and sources as entries, entries + 1 source pointers, zero past
// the answer. Refuses as the matrix, the layout, 18, 11, 12 for the seeds, 25.
#[unsafe(no_mangle)]
pub extern "C" fn hybit_prepare_region(
    nrows: usize,
    ncols: usize,
    row_ptr: &[u32],
    col_idx: &[u32],
    values: &[f64],
    entity_kinds: &[u8],
    entity_ids: &[u64],
    field_ids: &[u32],
    components: &[u32],
    offsets: &[u64],
    len: usize,
    words: &[u64],
    hops: u64,
    row_word_ptr: &mut [u32],
    row_word_indices: &mut [u32],
    row_masks: &mut [u64],
    column_word_ptr: &mut [u32],
    column_word_indices: &mut [u32],
    column_masks: &mut [u64],
    starts: &mut [u32],
    order: &mut [u32],
    region: &mut [u64],
    frontier: &mut [u64],
    scratch: &mut [u64],
    global_nodes: &mut [u32],
    local_row_ptr: &mut [u32],
    local_col_idx: &mut [u32],
    source_ptr: &mut [u32],
    source_indices: &mut [u32],
) -> PreparedAnswer
    ensures value { result ≡ (prepared_region nrows ncols row_ptr.now col_idx.now values.now entity_kinds.now entity_ids.now field_ids.now components.now offsets.now len words.now hops row_word_ptr.old row_word_indices.old row_masks.old column_word_ptr.old column_word_indices.old column_masks.old starts.old order.old region.old frontier.old scratch.old global_nodes.old local_row_ptr.old local_col_idx.old source_ptr.old source_indices.old).answer }
    ensures row_pointers { row_word_ptr.new ≡ (prepared_region nrows ncols row_ptr.now col_idx.now values.now entity_kinds.now entity_ids.now field_ids.now components.now offsets.now len words.now hops row_word_ptr.old row_word_indices.old row_masks.old column_word_ptr.old column_word_indices.old column_masks.old starts.old order.old region.old frontier.old scratch.old global_nodes.old local_row_ptr.old local_col_idx.old source_ptr.old source_indices.old).row_word_ptr }
    ensures row_words { row_word_indices.new ≡ (prepared_region nrows ncols row_ptr.now col_idx.now values.now entity_kinds.now entity_ids.now field_ids.now components.now offsets.now len words.now hops row_word_ptr.old row_word_indices.old row_masks.old column_word_ptr.old column_word_indices.old column_masks.old starts.old order.old region.old frontier.old scratch.old global_nodes.old local_row_ptr.old local_col_idx.old source_ptr.old source_indices.old).row_word_indices }
    ensures row_masked { row_masks.new ≡ (prepared_region nrows ncols row_ptr.now col_idx.now values.now entity_kinds.now entity_ids.now field_ids.now components.now offsets.now len words.now hops row_word_ptr.old row_word_indices.old row_masks.old column_word_ptr.old column_word_indices.old column_masks.old starts.old order.old region.old frontier.old scratch.old global_nodes.old local_row_ptr.old local_col_idx.old source_ptr.old source_indices.old).row_masks }
    ensures column_pointers { column_word_ptr.new ≡ (prepared_region nrows ncols row_ptr.now col_idx.now values.now entity_kinds.now entity_ids.now field_ids.now components.now offsets.now len words.now hops row_word_ptr.old row_word_indices.old row_masks.old column_word_ptr.old column_word_indices.old column_masks.old starts.old order.old region.old frontier.old scratch.old global_nodes.old local_row_ptr.old local_col_idx.old source_ptr.old source_indices.old).column_word_ptr }
    ensures column_words { column_word_indices.new ≡ (prepared_region nrows ncols row_ptr.now col_idx.now values.now entity_kinds.now entity_ids.now field_ids.now components.now offsets.now len words.now hops row_word_ptr.old row_word_indices.old row_masks.old column_word_ptr.old column_word_indices.old column_masks.old starts.old order.old region.old frontier.old scratch.old global_nodes.old local_row_ptr.old local_col_idx.old source_ptr.old source_indices.old).column_word_indices }
    ensures column_masked { column_masks.new ≡ (prepared_region nrows ncols row_ptr.now col_idx.now values.now entity_kinds.now entity_ids.now field_ids.now components.now offsets.now len words.now hops row_word_ptr.old row_word_indices.old row_masks.old column_word_ptr.old column_word_indices.old column_masks.old starts.old order.old region.old frontier.old scratch.old global_nodes.old local_row_ptr.old local_col_idx.old source_ptr.old source_indices.old).column_masks }
    ensures scratch_starts { starts.new ≡ (prepared_region nrows ncols row_ptr.now col_idx.now values.now entity_kinds.now entity_ids.now field_ids.now components.now offsets.now len words.now hops row_word_ptr.old row_word_indices.old row_masks.old column_word_ptr.old column_word_indices.old column_masks.old starts.old order.old region.old frontier.old scratch.old global_nodes.old local_row_ptr.old local_col_idx.old source_ptr.old source_indices.old).starts }
    ensures scratch_order { order.new ≡ (prepared_region nrows ncols row_ptr.now col_idx.now values.now entity_kinds.now entity_ids.now field_ids.now components.now offsets.now len words.now hops row_word_ptr.old row_word_indices.old row_masks.old column_word_ptr.old column_word_indices.old column_masks.old starts.old order.old region.old frontier.old scratch.old global_nodes.old local_row_ptr.old local_col_idx.old source_ptr.old source_indices.old).order }
    ensures inside { region.new ≡ (prepared_region nrows ncols row_ptr.now col_idx.now values.now entity_kinds.now entity_ids.now field_ids.now components.now offsets.now len words.now hops row_word_ptr.old row_word_indices.old row_masks.old column_word_ptr.old column_word_indices.old column_masks.old starts.old order.old region.old frontier.old scratch.old global_nodes.old local_row_ptr.old local_col_idx.old source_ptr.old source_indices.old).region }
    ensures edge { frontier.new ≡ (prepared_region nrows ncols row_ptr.now col_idx.now values.now entity_kinds.now entity_ids.now field_ids.now components.now offsets.now len words.now hops row_word_ptr.old row_word_indices.old row_masks.old column_word_ptr.old column_word_indices.old column_masks.old starts.old order.old region.old frontier.old scratch.old global_nodes.old local_row_ptr.old local_col_idx.old source_ptr.old source_indices.old).frontier }
    ensures spent { scratch.new ≡ (prepared_region nrows ncols row_ptr.now col_idx.now values.now entity_kinds.now entity_ids.now field_ids.now components.now offsets.now len words.now hops row_word_ptr.old row_word_indices.old row_masks.old column_word_ptr.old column_word_indices.old column_masks.old starts.old order.old region.old frontier.old scratch.old global_nodes.old local_row_ptr.old local_col_idx.old source_ptr.old source_indices.old).scratch }
    ensures members { global_nodes.new ≡ (prepared_region nrows ncols row_ptr.now col_idx.now values.now entity_kinds.now entity_ids.now field_ids.now components.now offsets.now len words.now hops row_word_ptr.old row_word_indices.old row_masks.old column_word_ptr.old column_word_indices.old column_masks.old starts.old order.old region.old frontier.old scratch.old global_nodes.old local_row_ptr.old local_col_idx.old source_ptr.old source_indices.old).global_nodes }
    ensures pointers { local_row_ptr.new ≡ (prepared_region nrows ncols row_ptr.now col_idx.now values.now entity_kinds.now entity_ids.now field_ids.now components.now offsets.now len words.now hops row_word_ptr.old row_word_indices.old row_masks.old column_word_ptr.old column_word_indices.old column_masks.old starts.old order.old region.old frontier.old scratch.old global_nodes.old local_row_ptr.old local_col_idx.old source_ptr.old source_indices.old).local_row_ptr }
    ensures columns { local_col_idx.new ≡ (prepared_region nrows ncols row_ptr.now col_idx.now values.now entity_kinds.now entity_ids.now field_ids.now components.now offsets.now len words.now hops row_word_ptr.old row_word_indices.old row_masks.old column_word_ptr.old column_word_indices.old column_masks.old starts.old order.old region.old frontier.old scratch.old global_nodes.old local_row_ptr.old local_col_idx.old source_ptr.old source_indices.old).local_col_idx }
    ensures source_pointers { source_ptr.new ≡ (prepared_region nrows ncols row_ptr.now col_idx.now values.now entity_kinds.now entity_ids.now field_ids.now components.now offsets.now len words.now hops row_word_ptr.old row_word_indices.old row_masks.old column_word_ptr.old column_word_indices.old column_masks.old starts.old order.old region.old frontier.old scratch.old global_nodes.old local_row_ptr.old local_col_idx.old source_ptr.old source_indices.old).source_ptr }
    ensures sources { source_indices.new ≡ (prepared_region nrows ncols row_ptr.now col_idx.now values.now entity_kinds.now entity_ids.now field_ids.now components.now offsets.now len words.now hops row_word_ptr.old row_word_indices.old row_masks.old column_word_ptr.old column_word_indices.old column_masks.old starts.old order.old region.old frontier.old scratch.old global_nodes.old local_row_ptr.old local_col_idx.old source_ptr.old source_indices.old).source_indices }
{
    hybit_matrix::prepared::hybit_prepare_region(
        nrows,
        ncols,
        row_ptr,
        col_idx,
        values,
        entity_kinds,
        entity_ids,
        field_ids,
        components,
        offsets,
        len,
        words,
        hops,
        row_word_ptr,
        row_word_indices,
        row_masks,
        column_word_ptr,
        column_word_indices,
        column_masks,
        starts,
        order,
        region,
        frontier,
        scratch,
        global_nodes,
        local_row_ptr,
        local_col_idx,
        source_ptr,
        source_indices,
    )
}

// As field_block_owners, on a matrix and its layout. Refuses as the matrix, the layout, 18, then as field_block_owners.
#[unsafe(no_mangle)]
pub extern "C" fn hybit_validate_block_owners(
    nrows: usize,
    ncols: usize,
    row_ptr: &[u32],
    col_idx: &[u32],
    values: &[f64],
    entity_kinds: &[u8],
    entity_ids: &[u64],
    field_ids: &[u32],
    components: &[u32],
    offsets: &[u64],
    dof_owners: &[u32],
    ranks: u32,
    out: &mut [u32],
) -> Answer
    ensures value { result ≡ flat_of_counted (owners_answer (block_owners_check (matrix_check nrows ncols row_ptr.now col_idx.now values.now) (square_check entity_kinds.now entity_ids.now field_ids.now components.now offsets.now nrows ncols) (owners_check entity_kinds.now entity_ids.now field_ids.now components.now offsets.now dof_owners.now ranks out.old)) components.now) }
    ensures owned { out.new ≡ owners_list (block_owners_check (matrix_check nrows ncols row_ptr.now col_idx.now values.now) (square_check entity_kinds.now entity_ids.now field_ids.now components.now offsets.now nrows ncols) (owners_check entity_kinds.now entity_ids.now field_ids.now components.now offsets.now dof_owners.now ranks out.old)) components.now dof_owners.now out.old }
{
    hybit_matrix::prepared::hybit_validate_block_owners(
        nrows,
        ncols,
        row_ptr,
        col_idx,
        values,
        entity_kinds,
        entity_ids,
        field_ids,
        components,
        offsets,
        dof_owners,
        ranks,
        out,
    )
}

// A job's text in, the answer's text out, a refused job's too; value: its length in bytes. Refuses 25 alone.
#[unsafe(no_mangle)]
pub extern "C" fn hybit_peak_job(input: &[u8], out: &mut [u8]) -> Answer
    ensures value { result ≡ flat_of_counted (text_answer (answer_text input.now) out.old) }
    ensures out_after { out.new ≡ text_left (answer_text input.now) out.old }
{
    hybit_matrix::prepared::hybit_peak_job(input, out)
}
