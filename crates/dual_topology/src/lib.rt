// Both sides of a topology, `AbtmDualTopology` of the Rust: the rows, and the columns as rows of the transpose.
#![tactic(auto, using(base::proofs::Checks::checks))]

ghost use Rattle.std.specs.Prelude.{◌≡◌, Err, IfOk, IfErr, ◌+◌, length};
ghost use Rattle.csr32.specs.Views.{stores};
ghost use Rattle.side.specs.Side.{flip};
ghost use Rattle.side.specs.Built.{built_ptr, built_words, built_masks};
ghost use Rattle.dual_topology.specs.Answers.{build_answer, scratch, total_bytes, bytes_per_nnz, row_words_answer, row_popcount_answer, row_contains_answer, row_rank_answer, row_select_answer, row_word_answer};
ghost use Rattle.dual_topology.specs.Views.{check_build};

use base::Refusal;
use csr32::Csr32Matrix;
use side::AbtmTopology;
use side::inner::RowWords;
use word::AbtmTopologyWord;

pub mod inner;

// A topology as a caller lends it: the rows side and the columns side, each with its own sizes, so that two can disagree.
#[derive(Clone, Copy)]
pub struct AbtmDualTopology<'a> {
    pub rows: AbtmTopology<'a>,
    pub columns: AbtmTopology<'a>,
}

// How many words each side has, and how many pairs both have.
#[derive(Clone, Copy)]
pub struct TopologyCounts {
    pub row_words: u64,
    pub column_words: u64,
    pub pairs: u64,
}

// 32 bits hold each of these of an accepted topology, so that the ratio asks nothing of its caller.
#[derive(Clone, Copy)]
pub struct AbtmDualTopologyStats {
    pub nrows: u32,
    pub ncols: u32,
    pub structural_nnz: u32,
    pub row_metadata_bytes: u32,
    pub column_metadata_bytes: u32,
}

// The side that a row belongs to. A caller names it as data, and it chooses a side in one place (`find_row`): a closure would be no plainer.
#[derive(Clone, Copy)]
pub enum RowOf {
    Rows,
    Columns,
}

impl AbtmDualTopologyStats {
    pub fn total_metadata_bytes(self) -> u64
        ensures { result ≡ total_bytes self }
    {
        self.row_metadata_bytes as u64 + self.column_metadata_bytes as u64
    }

    pub fn metadata_bytes_per_nnz(self) -> f64
        ensures { result ≡ bytes_per_nnz self }
    {
        topology::inner::ratio(self.total_metadata_bytes(), self.structural_nnz as u64)
    }
}

// `starts` and `order` are scratch: a number for each column and one, and one for each entry. Lists that are written are handed in one by one:
// each has an equation, and in a struct behind `&mut` each contract would say besides that the references stay.
#[tactic(auto, using(base::proofs::Checks::checks), unfolding(crate::specs::Answers::build_check))]
pub fn from_csr32(
    matrix: Csr32Matrix,
    row_word_ptr: &mut [u32],
    row_word_indices: &mut [u32],
    row_masks: &mut [u64],
    column_word_ptr: &mut [u32],
    column_word_indices: &mut [u32],
    column_masks: &mut [u64],
    starts: &mut [u32],
    order: &mut [u32],
) -> Result<TopologyCounts, Refusal>
    ensures value { result ≡ build_answer (check_build matrix.entry row_word_ptr.old row_word_indices.old row_masks.old column_word_ptr.old column_word_indices.old column_masks.old starts.old order.old) matrix.entry.nrows matrix.entry.ncols matrix.entry.row_ptr.now matrix.entry.col_idx.now }
    ensures row_pointers { row_word_ptr.new ≡ built_ptr (check_build matrix.entry row_word_ptr.old row_word_indices.old row_masks.old column_word_ptr.old column_word_indices.old column_masks.old starts.old order.old) matrix.entry.nrows matrix.entry.ncols (stores matrix.entry) row_word_ptr.old }
    ensures row_words { row_word_indices.new ≡ built_words (check_build matrix.entry row_word_ptr.old row_word_indices.old row_masks.old column_word_ptr.old column_word_indices.old column_masks.old starts.old order.old) matrix.entry.nrows matrix.entry.ncols (stores matrix.entry) (length matrix.entry.col_idx.now) row_word_indices.old }
    ensures row_masked { row_masks.new ≡ built_masks (check_build matrix.entry row_word_ptr.old row_word_indices.old row_masks.old column_word_ptr.old column_word_indices.old column_masks.old starts.old order.old) matrix.entry.nrows matrix.entry.ncols (stores matrix.entry) (length matrix.entry.col_idx.now) row_masks.old }
    ensures column_pointers { column_word_ptr.new ≡ built_ptr (check_build matrix.entry row_word_ptr.old row_word_indices.old row_masks.old column_word_ptr.old column_word_indices.old column_masks.old starts.old order.old) matrix.entry.ncols matrix.entry.nrows (flip (stores matrix.entry)) column_word_ptr.old }
    ensures column_words { column_word_indices.new ≡ built_words (check_build matrix.entry row_word_ptr.old row_word_indices.old row_masks.old column_word_ptr.old column_word_indices.old column_masks.old starts.old order.old) matrix.entry.ncols matrix.entry.nrows (flip (stores matrix.entry)) (length matrix.entry.col_idx.now) column_word_indices.old }
    ensures column_masked { column_masks.new ≡ built_masks (check_build matrix.entry row_word_ptr.old row_word_indices.old row_masks.old column_word_ptr.old column_word_indices.old column_masks.old starts.old order.old) matrix.entry.ncols matrix.entry.nrows (flip (stores matrix.entry)) (length matrix.entry.col_idx.now) column_masks.old }
    ensures scratch_starts { starts.new ≡ scratch (check_build matrix.entry row_word_ptr.old row_word_indices.old row_masks.old column_word_ptr.old column_word_indices.old column_masks.old starts.old order.old) (matrix.entry.ncols + 1) starts.old }
    ensures scratch_order { order.new ≡ scratch (check_build matrix.entry row_word_ptr.old row_word_indices.old row_masks.old column_word_ptr.old column_word_indices.old column_masks.old starts.old order.old) (length matrix.entry.col_idx.now) order.old }
{
    let accepted = matrix.accept()?;
    inner::check_room(
        matrix.nrows,
        matrix.ncols,
        matrix.col_idx.len(),
        row_word_ptr.len(),
        row_word_indices.len(),
        row_masks.len(),
        column_word_ptr.len(),
        column_word_indices.len(),
        column_masks.len(),
        starts.len(),
        order.len(),
    )?;
    Ok(inner::build(
        accepted,
        row_word_ptr,
        row_word_indices,
        row_masks,
        column_word_ptr,
        column_word_indices,
        column_masks,
        starts,
        order,
    ))
}

impl<'a> AbtmDualTopology<'a> {
    ghost use Rattle.dual_topology.specs.Views.{check_topology, check_row, answer_stats, row, width, FoundRow, SoundTopology};

    #[tactic(auto, using(base::proofs::Checks::checks), unfolding(crate::specs::Check::topology_check, side::specs::Check::fault_check))]
    pub fn validate(self) -> Result<(), Refusal>
        ensures value { result ≡ check_topology self.entry }
        ensures accepted { IfOk result (λ t. SoundTopology self.entry) }
    {
        self.rows.check_limits()?;
        self.columns.check_limits()?;
        self.fault()?;
        Ok(())
    }

    pub fn stats(self) -> Result<AbtmDualTopologyStats, Refusal>
        ensures { result ≡ answer_stats self.entry }
    {
        self.validate()?;
        let counts = TopologyCounts {
            row_words: self.rows.masks.len() as u64,
            column_words: self.columns.masks.len() as u64,
            pairs: self.rows.structural_nnz as u64,
        };
        Ok(inner::stats(self.rows.nrows, self.rows.ncols, counts))
    }

    // The topology, then the row's number: the row's words.
    fn find_row(self, of: RowOf, number: u64) -> Result<RowWords<'a>, Refusal>
        ensures refused { IfErr result (λ e. check_row self.entry of number ≡ Err e) }
        ensures found { IfOk result (λ r. FoundRow self.entry of number r) }
    {
        let topology = self.accept()?;
        let side = match of {
            RowOf::Rows => topology.rows,
            RowOf::Columns => topology.columns,
        };
        if number >= side.nrows as u64 {
            return Err(Refusal::OutOfRange);
        }
        Ok(side.row(number as usize))
    }

    // How many stored words the row has.
    pub fn row_words(self, of: RowOf, number: u64) -> Result<u64, Refusal>
        ensures { result ≡ row_words_answer (check_row self.entry of number) (width self.entry of) (row self.entry of number) }
    {
        let row = self.find_row(of, number)?;
        Ok(row.count())
    }

    // How many columns the row has.
    pub fn row_popcount(self, of: RowOf, number: u64) -> Result<u64, Refusal>
        ensures { result ≡ row_popcount_answer (check_row self.entry of number) (width self.entry of) (row self.entry of number) }
    {
        let row = self.find_row(of, number)?;
        Ok(row.popcount())
    }

    // Whether the row has the column; past the end the answer is no.
    pub fn row_contains(self, of: RowOf, number: u64, col: u64) -> Result<bool, Refusal>
        ensures { result ≡ row_contains_answer (check_row self.entry of number) (width self.entry of) (row self.entry of number) col }
    {
        let row = self.find_row(of, number)?;
        Ok(row.contains(col))
    }

    // How many columns of the row lie below `col`, which may be the end.
    pub fn row_rank(self, of: RowOf, number: u64, col: u64) -> Result<u64, Refusal>
        ensures { result ≡ row_rank_answer (check_row self.entry of number) (width self.entry of) (row self.entry of number) col }
    {
        let row = self.find_row(of, number)?;
        if col > row.ncols as u64 {
            return Err(Refusal::OutOfRange);
        }
        Ok(row.rank(col as usize))
    }

    // The row's column with that ordinal, from 0, or none.
    pub fn row_select(self, of: RowOf, number: u64, ordinal: u64) -> Result<Option<usize>, Refusal>
        ensures { result ≡ row_select_answer (check_row self.entry of number) (width self.entry of) (row self.entry of number) ordinal }
    {
        let row = self.find_row(of, number)?;
        Ok(row.select(ordinal))
    }

    // The row's stored word k, from 0, or none: what the Rust's `words()` yields.
    pub fn row_word(
        self,
        of: RowOf,
        number: u64,
        k: u64,
    ) -> Result<Option<AbtmTopologyWord>, Refusal>
        ensures { result ≡ row_word_answer (check_row self.entry of number) (width self.entry of) (row self.entry of number) k }
    {
        let row = self.find_row(of, number)?;
        Ok(row.word(k))
    }
}
