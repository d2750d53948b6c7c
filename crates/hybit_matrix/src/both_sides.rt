// The calls on a topology and its rows with flat answers. A row is named by side and number: `columns` says which side.
ghost use Rattle.std.specs.Prelude.{◌≡◌, ◌+◌, length};
ghost use Rattle.csr32.specs.Matrix.{stored};
ghost use Rattle.side.specs.Side.{flip};
ghost use Rattle.side.specs.Built.{built_ptr, built_words, built_masks};
ghost use Rattle.dual_topology.specs.Check.{topology_check};
ghost use Rattle.dual_topology.specs.Answers.{build_check, build_answer, scratch, row_words_answer, row_popcount_answer, row_contains_answer, row_rank_answer, row_select_answer, row_word_answer};
ghost use Rattle.hybit_matrix.specs.Flat.{pair_answer_of, flat_of_checked, flat_of_truth, flat_of_counted};
ghost use Rattle.hybit_matrix.specs.FlatTopology.{flat_of_dual_stated, flat_of_topology_built, flat_of_column, flat_of_word, side_of_name, stated, on_row};

use crate::{Answer, Flat, PairAnswer, refused, views};
use base::Refusal;
use dual_topology::{AbtmDualTopologyStats, RowOf, TopologyCounts};
use word::AbtmTopologyWord;

// Counts, bytes and the ratio; all 0 on a refusal.
#[repr(C)]
#[derive(Clone, Copy, Default)]
pub struct DualStatsAnswer {
    pub number: u32,
    pub present: bool,
    pub expected: u64,
    pub actual: u64,
    pub nrows: u64,
    pub ncols: u64,
    pub structural_nnz: u64,
    pub row_metadata_bytes: u64,
    pub column_metadata_bytes: u64,
    pub total_metadata_bytes: u64,
    pub metadata_bytes_per_nnz: f64,
}

// How many words each side has, and how many pairs both have.
#[repr(C)]
#[derive(Clone, Copy, Default)]
pub struct BuildAnswer {
    pub number: u32,
    pub present: bool,
    pub expected: u64,
    pub actual: u64,
    pub row_words: u64,
    pub column_words: u64,
    pub pairs: u64,
}

impl From<Result<AbtmDualTopologyStats, Refusal>> for DualStatsAnswer {
    ghost from_gives = { λ r a. a ≡ flat_of_dual_stated r };

    #[tactic(auto, unfolding(crate::specs::FlatTopology::flat_of_dual_stated))]
    fn from(s: Result<AbtmDualTopologyStats, Refusal>) -> Self {
        match s {
            Ok(x) => Self {
                present: true,
                nrows: x.nrows as u64,
                ncols: x.ncols as u64,
                structural_nnz: x.structural_nnz as u64,
                row_metadata_bytes: x.row_metadata_bytes as u64,
                column_metadata_bytes: x.column_metadata_bytes as u64,
                total_metadata_bytes: x.total_metadata_bytes(),
                metadata_bytes_per_nnz: x.metadata_bytes_per_nnz(),
                ..Self::default()
            },
            Err(r) => refused!(r),
        }
    }
}

impl From<Result<TopologyCounts, Refusal>> for BuildAnswer {
    ghost from_gives = { λ r a. a ≡ flat_of_topology_built r };

    #[tactic(auto, unfolding(crate::specs::FlatTopology::flat_of_topology_built))]
    fn from(b: Result<TopologyCounts, Refusal>) -> Self {
        match b {
            Ok(x) => Self {
                present: true,
                row_words: x.row_words,
                column_words: x.column_words,
                pairs: x.pairs,
                ..Self::default()
            },
            Err(r) => refused!(r),
        }
    }
}

impl Flat<PairAnswer> for AbtmTopologyWord {
    ghost flat_record = { λ w. pair_answer_of w.word_index w.mask };

    fn flat(self) -> PairAnswer {
        (self.word_index as u64, self.mask).flat()
    }
}

// `RowOf` is another crate's, and a flag names a side only here: no `From`.
#[tactic(auto, unfolding(crate::specs::FlatTopology::side_of_name))]
fn side_named(columns: bool) -> RowOf
    ensures { result ≡ side_of_name columns }
{
    if columns { RowOf::Columns } else { RowOf::Rows }
}

// Both sides of a matrix's pairs: each needs its rows + 1 pointers and as many words as entries, zero past its own. `starts` (ncols + 1) and
// `order` (one for each entry) are scratch, zero afterwards. Refuses 1 to 8, 25.
pub fn hybit_dual_topology_from_csr32(
    nrows: usize,
    ncols: usize,
    row_ptr: &[u32],
    col_idx: &[u32],
    values: &[f64],
    row_word_ptr: &mut [u32],
    row_word_indices: &mut [u32],
    row_masks: &mut [u64],
    column_word_ptr: &mut [u32],
    column_word_indices: &mut [u32],
    column_masks: &mut [u64],
    starts: &mut [u32],
    order: &mut [u32],
) -> BuildAnswer
    ensures value { result ≡ flat_of_topology_built (build_answer (build_check nrows ncols row_ptr.now col_idx.now values.now row_word_ptr.old row_word_indices.old row_masks.old column_word_ptr.old column_word_indices.old column_masks.old starts.old order.old) nrows ncols row_ptr.now col_idx.now) }
    ensures row_pointers { row_word_ptr.new ≡ built_ptr (build_check nrows ncols row_ptr.now col_idx.now values.now row_word_ptr.old row_word_indices.old row_masks.old column_word_ptr.old column_word_indices.old column_masks.old starts.old order.old) nrows ncols (stored row_ptr.now col_idx.now) row_word_ptr.old }
    ensures row_words { row_word_indices.new ≡ built_words (build_check nrows ncols row_ptr.now col_idx.now values.now row_word_ptr.old row_word_indices.old row_masks.old column_word_ptr.old column_word_indices.old column_masks.old starts.old order.old) nrows ncols (stored row_ptr.now col_idx.now) (length col_idx.now) row_word_indices.old }
    ensures row_masked { row_masks.new ≡ built_masks (build_check nrows ncols row_ptr.now col_idx.now values.now row_word_ptr.old row_word_indices.old row_masks.old column_word_ptr.old column_word_indices.old column_masks.old starts.old order.old) nrows ncols (stored row_ptr.now col_idx.now) (length col_idx.now) row_masks.old }
    ensures column_pointers { column_word_ptr.new ≡ built_ptr (build_check nrows ncols row_ptr.now col_idx.now values.now row_word_ptr.old row_word_indices.old row_masks.old column_word_ptr.old column_word_indices.old column_masks.old starts.old order.old) ncols nrows (flip (stored row_ptr.now col_idx.now)) column_word_ptr.old }
    ensures column_words { column_word_indices.new ≡ built_words (build_check nrows ncols row_ptr.now col_idx.now values.now row_word_ptr.old row_word_indices.old row_masks.old column_word_ptr.old column_word_indices.old column_masks.old starts.old order.old) ncols nrows (flip (stored row_ptr.now col_idx.now)) (length col_idx.now) column_word_indices.old }
    ensures column_masked { column_masks.new ≡ built_masks (build_check nrows ncols row_ptr.now col_idx.now values.now row_word_ptr.old row_word_indices.old row_masks.old column_word_ptr.old column_word_indices.old column_masks.old starts.old order.old) ncols nrows (flip (stored row_ptr.now col_idx.now)) (length col_idx.now) column_masks.old }
    ensures scratch_starts { starts.new ≡ scratch (build_check nrows ncols row_ptr.now col_idx.now values.now row_word_ptr.old row_word_indices.old row_masks.old column_word_ptr.old column_word_indices.old column_masks.old starts.old order.old) (ncols + 1) starts.old }
    ensures scratch_order { order.new ≡ scratch (build_check nrows ncols row_ptr.now col_idx.now values.now row_word_ptr.old row_word_indices.old row_masks.old column_word_ptr.old column_word_indices.old column_masks.old starts.old order.old) (length col_idx.now) order.old }
{
    dual_topology::from_csr32(
        views::matrix(nrows, ncols, row_ptr, col_idx, values),
        row_word_ptr,
        row_word_indices,
        row_masks,
        column_word_ptr,
        column_word_indices,
        column_masks,
        starts,
        order,
    )
    .into()
}

// Checks a topology: 1 (both sides), 9 (each side, and that the columns are the transpose of the rows).
pub fn hybit_dual_topology_validate(
    nrows: usize,
    ncols: usize,
    row_word_ptr: &[u32],
    row_word_indices: &[u32],
    row_masks: &[u64],
    structural_nnz: usize,
    column_nrows: usize,
    column_ncols: usize,
    column_word_ptr: &[u32],
    column_word_indices: &[u32],
    column_masks: &[u64],
    column_structural_nnz: usize,
) -> Answer
    ensures { result ≡ flat_of_checked (topology_check nrows ncols row_word_ptr.now row_word_indices.now row_masks.now structural_nnz column_nrows column_ncols column_word_ptr.now column_word_indices.now column_masks.now column_structural_nnz) }
{
    views::topology(
        nrows,
        ncols,
        row_word_ptr,
        row_word_indices,
        row_masks,
        structural_nnz,
        column_nrows,
        column_ncols,
        column_word_ptr,
        column_word_indices,
        column_masks,
        column_structural_nnz,
    )
    .validate()
    .into()
}

// Counts and bytes of a topology. Refuses 1, 9.
pub fn hybit_dual_topology_stats(
    nrows: usize,
    ncols: usize,
    row_word_ptr: &[u32],
    row_word_indices: &[u32],
    row_masks: &[u64],
    structural_nnz: usize,
    column_nrows: usize,
    column_ncols: usize,
    column_word_ptr: &[u32],
    column_word_indices: &[u32],
    column_masks: &[u64],
    column_structural_nnz: usize,
) -> DualStatsAnswer
    ensures { result ≡ flat_of_dual_stated (stated nrows ncols row_word_ptr.now row_word_indices.now row_masks.now structural_nnz column_nrows column_ncols column_word_ptr.now column_word_indices.now column_masks.now column_structural_nnz) }
{
    views::topology(
        nrows,
        ncols,
        row_word_ptr,
        row_word_indices,
        row_masks,
        structural_nnz,
        column_nrows,
        column_ncols,
        column_word_ptr,
        column_word_indices,
        column_masks,
        column_structural_nnz,
    )
    .stats()
    .into()
}

// The six calls on a row stay one function each: C names each, and each body is the one call that it hands its lists on to.

// value: how many words a row stores. Refuses 1, 9, then 13 for the number.
pub fn hybit_row_words(
    nrows: usize,
    ncols: usize,
    row_word_ptr: &[u32],
    row_word_indices: &[u32],
    row_masks: &[u64],
    structural_nnz: usize,
    column_nrows: usize,
    column_ncols: usize,
    column_word_ptr: &[u32],
    column_word_indices: &[u32],
    column_masks: &[u64],
    column_structural_nnz: usize,
    columns: bool,
    number: u64,
) -> Answer
    ensures { result ≡ flat_of_counted (on_row nrows ncols row_word_ptr.now row_word_indices.now row_masks.now structural_nnz column_nrows column_ncols column_word_ptr.now column_word_indices.now column_masks.now column_structural_nnz row_words_answer columns number) }
{
    views::topology(
        nrows,
        ncols,
        row_word_ptr,
        row_word_indices,
        row_masks,
        structural_nnz,
        column_nrows,
        column_ncols,
        column_word_ptr,
        column_word_indices,
        column_masks,
        column_structural_nnz,
    )
    .row_words(side_named(columns), number)
    .into()
}

// value: how many columns a row has. Refuses as row_words.
pub fn hybit_row_popcount(
    nrows: usize,
    ncols: usize,
    row_word_ptr: &[u32],
    row_word_indices: &[u32],
    row_masks: &[u64],
    structural_nnz: usize,
    column_nrows: usize,
    column_ncols: usize,
    column_word_ptr: &[u32],
    column_word_indices: &[u32],
    column_masks: &[u64],
    column_structural_nnz: usize,
    columns: bool,
    number: u64,
) -> Answer
    ensures { result ≡ flat_of_counted (on_row nrows ncols row_word_ptr.now row_word_indices.now row_masks.now structural_nnz column_nrows column_ncols column_word_ptr.now column_word_indices.now column_masks.now column_structural_nnz row_popcount_answer columns number) }
{
    views::topology(
        nrows,
        ncols,
        row_word_ptr,
        row_word_indices,
        row_masks,
        structural_nnz,
        column_nrows,
        column_ncols,
        column_word_ptr,
        column_word_indices,
        column_masks,
        column_structural_nnz,
    )
    .row_popcount(side_named(columns), number)
    .into()
}

// value: 1 if the row has the column, else 0; past the last column 0. Refuses as row_words.
pub fn hybit_row_contains(
    nrows: usize,
    ncols: usize,
    row_word_ptr: &[u32],
    row_word_indices: &[u32],
    row_masks: &[u64],
    structural_nnz: usize,
    column_nrows: usize,
    column_ncols: usize,
    column_word_ptr: &[u32],
    column_word_indices: &[u32],
    column_masks: &[u64],
    column_structural_nnz: usize,
    columns: bool,
    number: u64,
    col: u64,
) -> Answer
    ensures { result ≡ flat_of_truth (on_row nrows ncols row_word_ptr.now row_word_indices.now row_masks.now structural_nnz column_nrows column_ncols column_word_ptr.now column_word_indices.now column_masks.now column_structural_nnz row_contains_answer columns number col) }
{
    views::topology(
        nrows,
        ncols,
        row_word_ptr,
        row_word_indices,
        row_masks,
        structural_nnz,
        column_nrows,
        column_ncols,
        column_word_ptr,
        column_word_indices,
        column_masks,
        column_structural_nnz,
    )
    .row_contains(side_named(columns), number, col)
    .into()
}

// value: how many of the row's columns stand below `col`. Refuses as row_words, then 13 for a column past the end.
pub fn hybit_row_rank(
    nrows: usize,
    ncols: usize,
    row_word_ptr: &[u32],
    row_word_indices: &[u32],
    row_masks: &[u64],
    structural_nnz: usize,
    column_nrows: usize,
    column_ncols: usize,
    column_word_ptr: &[u32],
    column_word_indices: &[u32],
    column_masks: &[u64],
    column_structural_nnz: usize,
    columns: bool,
    number: u64,
    col: u64,
) -> Answer
    ensures { result ≡ flat_of_counted (on_row nrows ncols row_word_ptr.now row_word_indices.now row_masks.now structural_nnz column_nrows column_ncols column_word_ptr.now column_word_indices.now column_masks.now column_structural_nnz row_rank_answer columns number col) }
{
    views::topology(
        nrows,
        ncols,
        row_word_ptr,
        row_word_indices,
        row_masks,
        structural_nnz,
        column_nrows,
        column_ncols,
        column_word_ptr,
        column_word_indices,
        column_masks,
        column_structural_nnz,
    )
    .row_rank(side_named(columns), number, col)
    .into()
}

// value: the row's column number `ordinal`, counted from 0; or none. Refuses as row_words.
pub fn hybit_row_select(
    nrows: usize,
    ncols: usize,
    row_word_ptr: &[u32],
    row_word_indices: &[u32],
    row_masks: &[u64],
    structural_nnz: usize,
    column_nrows: usize,
    column_ncols: usize,
    column_word_ptr: &[u32],
    column_word_indices: &[u32],
    column_masks: &[u64],
    column_structural_nnz: usize,
    columns: bool,
    number: u64,
    ordinal: u64,
) -> Answer
    ensures { result ≡ flat_of_column (on_row nrows ncols row_word_ptr.now row_word_indices.now row_masks.now structural_nnz column_nrows column_ncols column_word_ptr.now column_word_indices.now column_masks.now column_structural_nnz row_select_answer columns number ordinal) }
{
    views::topology(
        nrows,
        ncols,
        row_word_ptr,
        row_word_indices,
        row_masks,
        structural_nnz,
        column_nrows,
        column_ncols,
        column_word_ptr,
        column_word_indices,
        column_masks,
        column_structural_nnz,
    )
    .row_select(side_named(columns), number, ordinal)
    .into()
}

// first and second: number and bits of the row's word k; or none. Refuses as row_words.
pub fn hybit_row_word(
    nrows: usize,
    ncols: usize,
    row_word_ptr: &[u32],
    row_word_indices: &[u32],
    row_masks: &[u64],
    structural_nnz: usize,
    column_nrows: usize,
    column_ncols: usize,
    column_word_ptr: &[u32],
    column_word_indices: &[u32],
    column_masks: &[u64],
    column_structural_nnz: usize,
    columns: bool,
    number: u64,
    k: u64,
) -> PairAnswer
    ensures { result ≡ flat_of_word (on_row nrows ncols row_word_ptr.now row_word_indices.now row_masks.now structural_nnz column_nrows column_ncols column_word_ptr.now column_word_indices.now column_masks.now column_structural_nnz row_word_answer columns number k) }
{
    views::topology(
        nrows,
        ncols,
        row_word_ptr,
        row_word_indices,
        row_masks,
        structural_nnz,
        column_nrows,
        column_ncols,
        column_word_ptr,
        column_word_indices,
        column_masks,
        column_structural_nnz,
    )
    .row_word(side_named(columns), number, k)
    .into()
}
