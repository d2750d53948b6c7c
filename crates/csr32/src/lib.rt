// A sparse matrix in compressed row form: its check, and what it means for a pair to be stored.
#![tactic(auto)]

ghost use Rattle.std.specs.Prelude.{◌≡◌};
ghost use Rattle.base.specs.Lists.{every};
ghost use Rattle.csr32.specs.Matrix.{finite};

use base::Refusal;

pub mod inner;

// A matrix as a caller lends it.
#[derive(Clone, Copy)]
pub struct Csr32Matrix<'a> {
    pub nrows: usize,
    pub ncols: usize,
    pub row_ptr: &'a [u32],
    pub col_idx: &'a [u32],
    pub values: &'a [f64],
}

// Neither infinite nor a NaN: the library's test, under the name that the promises here have for it.
pub fn is_finite(x: f64) -> bool
    ensures { result ≡ finite x }
{
    x.is_finite()
}

// No value ends the pass, so that the compiler takes several at a time. An `if` clears the answer: with `all &= ..` the pass took 20 to 40 % more
// time, and a slower call is a defect.
pub fn all_finite(s: &[f64]) -> bool
    ensures { result ≡ every finite s.now }
{
    let mut all = true;
    for x in s {
        if !is_finite(*x) {
            all = false;
        }
    }
    all
}

impl Csr32Matrix<'_> {
    ghost use Rattle.csr32.specs.Views.{check_matrix};

    #[tactic(auto, using(base::proofs::Checks::checks), unfolding(crate::specs::Matrix::matrix_check))]
    pub fn validate(self) -> Result<(), Refusal>
        ensures { result ≡ check_matrix self.entry }
    {
        if self.nrows > base::SIDE_LIMIT
            || self.ncols > base::SIDE_LIMIT
            || self.col_idx.len() > base::ENTRY_LIMIT
            || self.values.len() > base::ENTRY_LIMIT
        {
            return Err(Refusal::OverLimit);
        }
        if self.row_ptr.len() != self.nrows + 1 {
            return Err(Refusal::RowPtrLength);
        }
        if self.col_idx.len() != self.values.len() {
            return Err(Refusal::EntryLengths);
        }
        if self.row_ptr[0] != 0 {
            return Err(Refusal::RowPtrStart);
        }
        if self.row_ptr[self.nrows] as usize != self.values.len() {
            return Err(Refusal::RowPtrEnd);
        }
        if !base::scan::never_falls(self.row_ptr) {
            return Err(Refusal::RowPtrFalls);
        }
        if !base::scan::all_below(self.col_idx, self.ncols) {
            return Err(Refusal::ColumnOutside);
        }
        if !all_finite(self.values) {
            return Err(Refusal::NotFinite);
        }
        Ok(())
    }
}
