// A matrix that was accepted, for callers that have checked: no part of the API.
ghost use Rattle.std.specs.Prelude.{◌≡◌, ◌<◌, Err, IfOk, IfErr};
ghost use Rattle.csr32.specs.Matrix.{IsMatrix};

use crate::Csr32Matrix;
use base::Refusal;

// Where its entries stand; most work on a matrix has no use for their values.
#[derive(Clone, Copy)]
pub struct Matrix<'a> {
    pub nrows: usize,
    pub ncols: usize,
    pub row_ptr: &'a [u32],
    pub col_idx: &'a [u32],
    ghost accepted: { IsMatrix nrows ncols row_ptr.now col_idx.now },
}

impl<'a> Csr32Matrix<'a> {
    ghost use Rattle.csr32.specs.Views.{check_matrix, AcceptedFrom};

    pub fn accept(self) -> Result<Matrix<'a>, Refusal>
        ensures refused { IfErr result (λ e. check_matrix self.entry ≡ Err e) }
        ensures accepted { IfOk result (λ m. (check_matrix self.entry ≡ Ok tt) × AcceptedFrom self.entry m) }
    {
        self.validate()?;
        Ok(Matrix {
            nrows: self.nrows,
            ncols: self.ncols,
            row_ptr: self.row_ptr,
            col_idx: self.col_idx,
        })
    }
}

impl<'a> Matrix<'a> {
    ghost use Rattle.csr32.specs.Views.{columns_of_row};

    // The columns of a row's entries, in stored order.
    #[tactic(auto, using(base::proofs::Lists::part_slice))]
    pub fn row_columns(self, row: usize) -> &'a [u32]
        requires { row < self.nrows }
        ensures { result.now ≡ columns_of_row self.entry row }
    {
        &self.col_idx[self.row_ptr[row] as usize..self.row_ptr[row + 1] as usize]
    }
}
