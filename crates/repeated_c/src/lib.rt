// Each call of the library as a C function, under its own name and with its own clauses.
// Made by tools/exports from crates/repeated/src: do not edit.
#![tactic(auto)]

ghost use Rattle.std.specs.Prelude.{◌≡◌};
ghost use Rattle.field_region.specs.Closure.{close_check, close_answer, close_words};
ghost use Rattle.repeated.specs.Repeated.{count_answer};
ghost use Rattle.repeated.specs.Lent.{grown_of, field_grown_of};

use repeated::Answer;

pub mod local;

// The value is the count of hops that the growth completed.
#[unsafe(no_mangle)]
pub extern "C" fn hybit_repeated_growth(
    nrows: usize,
    ncols: usize,
    row_word_ptr: &[u32],
    row_word_indices: &[u32],
    row_masks: &[u64],
    structural_nnz: usize,
    column_nrows: usize,
    column_ncols: usize,
    column_word_ptr: &[u32],
    column_word_indices: &[u32],
    column_masks: &[u64],
    column_structural_nnz: usize,
    len: usize,
    words: &[u64],
    hops: u64,
    times: u64,
    region: &mut [u64],
    frontier: &mut [u64],
    scratch: &mut [u64],
) -> Answer
    ensures value { result ≡ (grown_of nrows ncols row_word_ptr.now row_word_indices.now row_masks.now structural_nnz column_nrows column_ncols column_word_ptr.now column_word_indices.now column_masks.now column_structural_nnz len words.now hops region.old frontier.old scratch.old).answer }
    ensures inside { region.new ≡ (grown_of nrows ncols row_word_ptr.now row_word_indices.now row_masks.now structural_nnz column_nrows column_ncols column_word_ptr.now column_word_indices.now column_masks.now column_structural_nnz len words.now hops region.old frontier.old scratch.old).region }
    ensures edge { frontier.new ≡ (grown_of nrows ncols row_word_ptr.now row_word_indices.now row_masks.now structural_nnz column_nrows column_ncols column_word_ptr.now column_word_indices.now column_masks.now column_structural_nnz len words.now hops region.old frontier.old scratch.old).frontier }
    ensures spent { scratch.new ≡ (grown_of nrows ncols row_word_ptr.now row_word_indices.now row_masks.now structural_nnz column_nrows column_ncols column_word_ptr.now column_word_indices.now column_masks.now column_structural_nnz len words.now hops region.old frontier.old scratch.old).scratch }
{
    repeated::hybit_repeated_growth(
        nrows,
        ncols,
        row_word_ptr,
        row_word_indices,
        row_masks,
        structural_nnz,
        column_nrows,
        column_ncols,
        column_word_ptr,
        column_word_indices,
        column_masks,
        column_structural_nnz,
        len,
        words,
        hops,
        times,
        region,
        frontier,
        scratch,
    )
}

// The value is the count of hops that the growth completed.
#[unsafe(no_mangle)]
pub extern "C" fn hybit_repeated_field_growth(
    nrows: usize,
    ncols: usize,
    row_word_ptr: &[u32],
    row_word_indices: &[u32],
    row_masks: &[u64],
    structural_nnz: usize,
    column_nrows: usize,
    column_ncols: usize,
    column_word_ptr: &[u32],
    column_word_indices: &[u32],
    column_masks: &[u64],
    column_structural_nnz: usize,
    entity_kinds: &[u8],
    entity_ids: &[u64],
    field_ids: &[u32],
    components: &[u32],
    offsets: &[u64],
    len: usize,
    words: &[u64],
    hops: u64,
    times: u64,
    region: &mut [u64],
    frontier: &mut [u64],
    scratch: &mut [u64],
) -> Answer
    ensures value { result ≡ (field_grown_of nrows ncols row_word_ptr.now row_word_indices.now row_masks.now structural_nnz column_nrows column_ncols column_word_ptr.now column_word_indices.now column_masks.now column_structural_nnz entity_kinds.now entity_ids.now field_ids.now components.now offsets.now len words.now hops region.old frontier.old scratch.old).answer }
    ensures inside { region.new ≡ (field_grown_of nrows ncols row_word_ptr.now row_word_indices.now row_masks.now structural_nnz column_nrows column_ncols column_word_ptr.now column_word_indices.now column_masks.now column_structural_nnz entity_kinds.now entity_ids.now field_ids.now components.now offsets.now len words.now hops region.old frontier.old scratch.old).region }
    ensures edge { frontier.new ≡ (field_grown_of nrows ncols row_word_ptr.now row_word_indices.now row_masks.now structural_nnz column_nrows column_ncols column_word_ptr.now column_word_indices.now column_masks.now column_structural_nnz entity_kinds.now entity_ids.now field_ids.now components.now offsets.now len words.now hops region.old frontier.old scratch.old).frontier }
    ensures spent { scratch.new ≡ (field_grown_of nrows ncols row_word_ptr.now row_word_indices.now row_masks.now structural_nnz column_nrows column_ncols column_word_ptr.now column_word_indices.now column_masks.now column_structural_nnz entity_kinds.now entity_ids.now field_ids.now components.now offsets.now len words.now hops region.old frontier.old scratch.old).scratch }
{
    repeated::hybit_repeated_field_growth(
        nrows,
        ncols,
        row_word_ptr,
        row_word_indices,
        row_masks,
        structural_nnz,
        column_nrows,
        column_ncols,
        column_word_ptr,
        column_word_indices,
        column_masks,
        column_structural_nnz,
        entity_kinds,
        entity_ids,
        field_ids,
        components,
        offsets,
        len,
        words,
        hops,
        times,
        region,
        frontier,
        scratch,
    )
}

// The value is the count of nodes.
#[unsafe(no_mangle)]
pub extern "C" fn hybit_repeated_closing(
    entity_kinds: &[u8],
    entity_ids: &[u64],
    field_ids: &[u32],
    components: &[u32],
    offsets: &[u64],
    len: usize,
    words: &[u64],
    times: u64,
    out: &mut [u64],
) -> Answer
    ensures value { result ≡ count_answer (close_answer (close_check entity_kinds.now entity_ids.now field_ids.now components.now offsets.now len words.now out.old) len) }
    ensures out_after { out.new ≡ close_words (close_check entity_kinds.now entity_ids.now field_ids.now components.now offsets.now len words.now out.old) components.now words.now out.old }
{
    repeated::hybit_repeated_closing(
        entity_kinds,
        entity_ids,
        field_ids,
        components,
        offsets,
        len,
        words,
        times,
        out,
    )
}
