// The lists of the C interface as the structs that the calls take. hybit_matrix has functions like these; they are private, as they are no part of
// what it promises. A crate below both would make them public, 60 lines of literals, and for the benchmark's library alone.
ghost use Rattle.std.specs.Prelude.{◌≡◌};

use csr32::Csr32Matrix;
use dof_layout::{FieldAwareDofLayout, FieldBlocks};
use dual_topology::AbtmDualTopology;
use mask::DofMask;
use side::AbtmTopology;

pub(crate) fn matrix<'a>(
    nrows: usize,
    ncols: usize,
    row_ptr: &'a [u32],
    col_idx: &'a [u32],
    values: &'a [f64],
) -> Csr32Matrix<'a>
    ensures { result ≡ record { nrows = nrows; ncols = ncols; row_ptr = row_ptr.entry; col_idx = col_idx.entry; values = values.entry } }
{
    Csr32Matrix {
        nrows,
        ncols,
        row_ptr,
        col_idx,
        values,
    }
}

pub(crate) fn mask<'a>(len: usize, words: &'a [u64]) -> DofMask<'a>
    ensures { result ≡ record { len = len; words = words.entry } }
{
    DofMask { len, words }
}

pub(crate) fn topology<'a>(
    nrows: usize,
    ncols: usize,
    row_word_ptr: &'a [u32],
    row_word_indices: &'a [u32],
    row_masks: &'a [u64],
    structural_nnz: usize,
    column_nrows: usize,
    column_ncols: usize,
    column_word_ptr: &'a [u32],
    column_word_indices: &'a [u32],
    column_masks: &'a [u64],
    column_structural_nnz: usize,
) -> AbtmDualTopology<'a>
    ensures { result ≡ record { rows = record { nrows = nrows; ncols = ncols; row_word_ptr = row_word_ptr.entry; word_indices = row_word_indices.entry; masks = row_masks.entry; structural_nnz = structural_nnz }; columns = record { nrows = column_nrows; ncols = column_ncols; row_word_ptr = column_word_ptr.entry; word_indices = column_word_indices.entry; masks = column_masks.entry; structural_nnz = column_structural_nnz } } }
{
    AbtmDualTopology {
        rows: AbtmTopology {
            nrows,
            ncols,
            row_word_ptr,
            word_indices: row_word_indices,
            masks: row_masks,
            structural_nnz,
        },
        columns: AbtmTopology {
            nrows: column_nrows,
            ncols: column_ncols,
            row_word_ptr: column_word_ptr,
            word_indices: column_word_indices,
            masks: column_masks,
            structural_nnz: column_structural_nnz,
        },
    }
}

pub(crate) fn layout<'a>(
    entity_kinds: &'a [u8],
    entity_ids: &'a [u64],
    field_ids: &'a [u32],
    components: &'a [u32],
    offsets: &'a [u64],
) -> FieldAwareDofLayout<'a>
    ensures { result ≡ record { blocks = record { entity_kinds = entity_kinds.entry; entity_ids = entity_ids.entry; field_ids = field_ids.entry; components = components.entry }; offsets = offsets.entry } }
{
    FieldAwareDofLayout {
        blocks: FieldBlocks {
            entity_kinds,
            entity_ids,
            field_ids,
            components,
        },
        offsets,
    }
}
