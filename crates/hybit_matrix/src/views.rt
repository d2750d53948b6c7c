// The lists of the C interface as the structs that the calls take.
ghost use Rattle.std.specs.Prelude.{◌≡◌};

use csr32::Csr32Matrix;
use dof_layout::{FieldAwareDofLayout, FieldBlocks};
use dual_topology::AbtmDualTopology;
use mask::DofMask;
use multiplicity::FlatRegions;
use side::AbtmTopology;

pub(crate) fn matrix<'a>(
    nrows: usize,
    ncols: usize,
    row_ptr: &'a [u32],
    col_idx: &'a [u32],
    values: &'a [f64],
) -> Csr32Matrix<'a>
    ensures { result ≡ record { nrows = nrows; ncols = ncols; row_ptr = row_ptr.entry; col_idx = col_idx.entry; values = values.entry } }
{
    Csr32Matrix {
        nrows,
        ncols,
        row_ptr,
        col_idx,
        values,
    }
}

pub(crate) fn mask<'a>(len: usize, words: &'a [u64]) -> DofMask<'a>
    ensures { result ≡ record { len = len; words = words.entry } }
{
    DofMask { len, words }
}

pub(crate) fn regions<'a>(
    node_count: usize,
    region_count: usize,
    words: &'a [u64],
) -> FlatRegions<'a>
    ensures { result ≡ record { node_count = node_count; region_count = region_count; words = words.entry } }
{
    FlatRegions {
        node_count,
        region_count,
        words,
    }
}

pub(crate) fn side<'a>(
    nrows: usize,
    ncols: usize,
    row_word_ptr: &'a [u32],
    word_indices: &'a [u32],
    masks: &'a [u64],
    structural_nnz: usize,
) -> AbtmTopology<'a>
    ensures { result ≡ record { nrows = nrows; ncols = ncols; row_word_ptr = row_word_ptr.entry; word_indices = word_indices.entry; masks = masks.entry; structural_nnz = structural_nnz } }
{
    AbtmTopology {
        nrows,
        ncols,
        row_word_ptr,
        word_indices,
        masks,
        structural_nnz,
    }
}

pub(crate) fn topology<'a>(
    nrows: usize,
    ncols: usize,
    row_word_ptr: &'a [u32],
    row_word_indices: &'a [u32],
    row_masks: &'a [u64],
    structural_nnz: usize,
    column_nrows: usize,
    column_ncols: usize,
    column_word_ptr: &'a [u32],
    column_word_indices: &'a [u32],
    column_masks: &'a [u64],
    column_structural_nnz: usize,
) -> AbtmDualTopology<'a>
    ensures { result ≡ record { rows = record { nrows = nrows; ncols = ncols; row_word_ptr = row_word_ptr.entry; word_indices = row_word_indices.entry; masks = row_masks.entry; structural_nnz = structural_nnz }; columns = record { nrows = column_nrows; ncols = column_ncols; row_word_ptr = column_word_ptr.entry; word_indices = column_word_indices.entry; masks = column_masks.entry; structural_nnz = column_structural_nnz } } }
{
    AbtmDualTopology {
        rows: side(
            nrows,
            ncols,
            row_word_ptr,
            row_word_indices,
            row_masks,
            structural_nnz,
        ),
        columns: side(
            column_nrows,
            column_ncols,
            column_word_ptr,
            column_word_indices,
            column_masks,
            column_structural_nnz,
        ),
    }
}

pub(crate) fn blocks<'a>(
    entity_kinds: &'a [u8],
    entity_ids: &'a [u64],
    field_ids: &'a [u32],
    components: &'a [u32],
) -> FieldBlocks<'a>
    ensures { result ≡ record { entity_kinds = entity_kinds.entry; entity_ids = entity_ids.entry; field_ids = field_ids.entry; components = components.entry } }
{
    FieldBlocks {
        entity_kinds,
        entity_ids,
        field_ids,
        components,
    }
}

pub(crate) fn layout<'a>(
    entity_kinds: &'a [u8],
    entity_ids: &'a [u64],
    field_ids: &'a [u32],
    components: &'a [u32],
    offsets: &'a [u64],
) -> FieldAwareDofLayout<'a>
    ensures { result ≡ record { blocks = record { entity_kinds = entity_kinds.entry; entity_ids = entity_ids.entry; field_ids = field_ids.entry; components = components.entry }; offsets = offsets.entry } }
{
    FieldAwareDofLayout {
        blocks: blocks(entity_kinds, entity_ids, field_ids, components),
        offsets,
    }
}
