// An accepted topology, the agreement of its sides, building and statistics, for callers that have checked: no part of the API. Lists that are
// written are handed in one by one, as in `from_csr32`.
ghost use Rattle.std.specs.Prelude.{◌≡◌, Ok, Err, IfOk, IfErr, cond, ◌+◌, ◌≤◌, ◌<◌, length, replicate};
ghost use Rattle.base.specs.Checks.{side_limit, entry_limit};
ghost use Rattle.base.specs.Lists.{over, over_with_zeros};
ghost use Rattle.csr32.specs.Views.{entries};
ghost use Rattle.side.specs.Side.{flip, side_ptr, side_words, side_masks, side_counts};
ghost use Rattle.side.specs.Views.{SoundSide, WithinLimits};
ghost use Rattle.side.specs.declared.Fault.{Fault};
ghost use Rattle.dual_topology.specs.Check.{IsTopology};
ghost use Rattle.dual_topology.specs.Answers.{build_room, counts_of, counted_stats};

use crate::{AbtmDualTopology, AbtmDualTopologyStats, TopologyCounts};
use agreement::inner::Sides;
use base::Refusal;
use csr32::inner::Matrix;
use side::inner::Side;
use side::{Fault, SideCounts};

// A topology that was accepted: two sides, the second the first turned round.
#[derive(Clone, Copy)]
pub struct Topology<'a> {
    pub rows: Side<'a>,
    pub columns: Side<'a>,
    ghost accepted: { IsTopology rows.nrows rows.ncols rows.row_word_ptr.now rows.word_indices.now rows.masks.now columns.row_word_ptr.now columns.word_indices.now columns.masks.now },
}

impl<'a> AbtmDualTopology<'a> {
    ghost use Rattle.dual_topology.specs.Views.{agree, check_topology, fault_of, SoundTopology, AcceptedFrom};

    pub fn accept(self) -> Result<Topology<'a>, Refusal>
        ensures refused { IfErr result (λ e. check_topology self.entry ≡ Err e) }
        ensures accepted { IfOk result (λ t. (check_topology self.entry ≡ Ok tt) × SoundTopology self.entry × AcceptedFrom self.entry t) }
    {
        self.validate()?;
        Ok(Topology {
            rows: self.rows.as_side(),
            columns: self.columns.as_side(),
        })
    }

    // Whether two sides without fault are each other's transpose.
    fn agreement(self) -> Result<(), Fault>
        requires { SoundSide self.rows × SoundSide self.columns }
        ensures { result ≡ cond (agree self.entry) (Ok tt) (Err Fault.Disagree) }
    {
        let rows = self.rows;
        let columns = self.columns;
        if columns.nrows != rows.ncols
            || columns.ncols != rows.nrows
            || columns.structural_nnz != rows.structural_nnz
        {
            return Err(Fault::Disagree);
        }
        let sides = Sides {
            rows: rows.as_side(),
            columns: columns.as_side(),
        };
        if !sides.is_transpose() {
            return Err(Fault::Disagree);
        }
        Ok(())
    }

    // The first fault of two sides within the limits: rows, columns, agreement.
    pub fn fault(self) -> Result<(), Fault>
        requires { WithinLimits self.rows × WithinLimits self.columns }
        ensures value { result ≡ fault_of self.entry }
        ensures sound { IfOk result (λ t. SoundTopology self.entry) }
    {
        self.rows.fault()?;
        self.columns.fault()?;
        self.agreement()
    }
}

// Whether the eight lists that a building takes are long enough, by their lengths.
#[tactic(auto, using(base::proofs::Checks::checks))]
pub fn check_room(
    nrows: usize,
    ncols: usize,
    entries: usize,
    row_pointers: usize,
    row_words: usize,
    row_masks: usize,
    column_pointers: usize,
    column_words: usize,
    column_masks: usize,
    starts: usize,
    order: usize,
) -> Result<(), Refusal>
    ensures { result ≡ build_room nrows ncols entries row_pointers row_words row_masks column_pointers column_words column_masks starts order }
{
    side::inner::check_room(nrows, entries, row_pointers, row_words, row_masks)?;
    side::inner::check_room(ncols, entries, column_pointers, column_words, column_masks)?;
    if ncols >= starts || entries > order {
        return Err(Refusal::ListTooShort);
    }
    Ok(())
}

// The columns side of a checked matrix: its transpose, and the side of that. The scratch is zero at the end.
fn build_columns(
    matrix: Matrix,
    column_word_ptr: &mut [u32],
    column_word_indices: &mut [u32],
    column_masks: &mut [u64],
    starts: &mut [u32],
    order: &mut [u32],
) -> SideCounts
    requires { (matrix.ncols < length column_word_ptr.old) × (length matrix.col_idx.now ≤ length column_word_indices.old) × (length matrix.col_idx.now ≤ length column_masks.old) × (matrix.ncols < length starts.old) × (length matrix.col_idx.now ≤ length order.old) }
    ensures value { result ≡ side_counts matrix.entry.ncols matrix.entry.nrows (flip (entries matrix.entry)) }
    ensures column_pointers { column_word_ptr.new ≡ over (side_ptr matrix.entry.ncols matrix.entry.nrows (flip (entries matrix.entry))) column_word_ptr.old }
    ensures column_words { column_word_indices.new ≡ over_with_zeros (side_words matrix.entry.ncols matrix.entry.nrows (flip (entries matrix.entry))) (length matrix.entry.col_idx.now) column_word_indices.old }
    ensures column_masked { column_masks.new ≡ over_with_zeros (side_masks matrix.entry.ncols matrix.entry.nrows (flip (entries matrix.entry))) (length matrix.entry.col_idx.now) column_masks.old }
    ensures scratch_starts { starts.new ≡ over (replicate (matrix.entry.ncols + 1) 0) starts.old }
    ensures scratch_order { order.new ≡ over (replicate (length matrix.entry.col_idx.now) 0) order.old }
{
    transpose::inner::transpose(matrix, starts, order);
    let pointers = matrix.ncols + 1;
    let entries = matrix.col_idx.len();
    let columns = side_build::inner::build_side(
        Matrix {
            nrows: matrix.ncols,
            ncols: matrix.nrows,
            row_ptr: &starts[..pointers],
            col_idx: &order[..entries],
        },
        column_word_ptr,
        column_word_indices,
        column_masks,
    );
    starts[..pointers].fill(0);
    order[..entries].fill(0);
    columns
}

// Both sides of a checked matrix; the scratch is zero at the end.
pub fn build(
    matrix: Matrix,
    row_word_ptr: &mut [u32],
    row_word_indices: &mut [u32],
    row_masks: &mut [u64],
    column_word_ptr: &mut [u32],
    column_word_indices: &mut [u32],
    column_masks: &mut [u64],
    starts: &mut [u32],
    order: &mut [u32],
) -> TopologyCounts
    requires room { (matrix.nrows < length row_word_ptr.old) × (length matrix.col_idx.now ≤ length row_word_indices.old) × (length matrix.col_idx.now ≤ length row_masks.old) × (matrix.ncols < length column_word_ptr.old) × (length matrix.col_idx.now ≤ length column_word_indices.old) × (length matrix.col_idx.now ≤ length column_masks.old) × (matrix.ncols < length starts.old) × (length matrix.col_idx.now ≤ length order.old) }
    ensures value { result ≡ counts_of matrix.entry.nrows matrix.entry.ncols (entries matrix.entry) }
    ensures row_pointers { row_word_ptr.new ≡ over (side_ptr matrix.entry.nrows matrix.entry.ncols (entries matrix.entry)) row_word_ptr.old }
    ensures row_words { row_word_indices.new ≡ over_with_zeros (side_words matrix.entry.nrows matrix.entry.ncols (entries matrix.entry)) (length matrix.entry.col_idx.now) row_word_indices.old }
    ensures row_masked { row_masks.new ≡ over_with_zeros (side_masks matrix.entry.nrows matrix.entry.ncols (entries matrix.entry)) (length matrix.entry.col_idx.now) row_masks.old }
    ensures column_pointers { column_word_ptr.new ≡ over (side_ptr matrix.entry.ncols matrix.entry.nrows (flip (entries matrix.entry))) column_word_ptr.old }
    ensures column_words { column_word_indices.new ≡ over_with_zeros (side_words matrix.entry.ncols matrix.entry.nrows (flip (entries matrix.entry))) (length matrix.entry.col_idx.now) column_word_indices.old }
    ensures column_masked { column_masks.new ≡ over_with_zeros (side_masks matrix.entry.ncols matrix.entry.nrows (flip (entries matrix.entry))) (length matrix.entry.col_idx.now) column_masks.old }
    ensures scratch_starts { starts.new ≡ over (replicate (matrix.entry.ncols + 1) 0) starts.old }
    ensures scratch_order { order.new ≡ over (replicate (length matrix.entry.col_idx.now) 0) order.old }
{
    let rows = side_build::inner::build_side(matrix, row_word_ptr, row_word_indices, row_masks);
    let columns = build_columns(
        matrix,
        column_word_ptr,
        column_word_indices,
        column_masks,
        starts,
        order,
    );
    TopologyCounts {
        row_words: rows.words,
        column_words: columns.words,
        pairs: rows.pairs,
    }
}

// The statistics of a built topology.
pub fn stats(nrows: usize, ncols: usize, counts: TopologyCounts) -> AbtmDualTopologyStats
    requires { (nrows ≤ side_limit) × (ncols ≤ side_limit) × (counts.row_words ≤ entry_limit) × (counts.column_words ≤ entry_limit) × (counts.pairs ≤ entry_limit) }
    ensures { result ≡ counted_stats nrows ncols counts }
{
    AbtmDualTopologyStats {
        nrows: nrows as u32,
        ncols: ncols as u32,
        structural_nnz: counts.pairs as u32,
        row_metadata_bytes: topology::inner::metadata_bytes(nrows, counts.row_words),
        column_metadata_bytes: topology::inner::metadata_bytes(ncols, counts.column_words),
    }
}
