// Whether the columns of a topology are the transpose of its rows, for callers that have checked both: no part of the API. Each pair of the rows is
// looked up in its column; that both sides hold as many says the rest.
ghost use Rattle.std.specs.Prelude.{◌≡◌, true, ◌+◌, ◌*◌, ◌<◌, length, get_or};
ghost use Rattle.base.specs.Checks.{side_limit};
ghost use Rattle.base.specs.Lists.{every};
ghost use Rattle.word.specs.Bits.{set_bits};
ghost use Rattle.side.specs.Side.{flip};
ghost use Rattle.side.specs.Views.{pairs, held};
ghost use Rattle.side.specs.Check.{bits_in, is_word_inside, IsSide};
ghost use Rattle.agreement.specs.Agreement.{turned, within};

use side::inner::{RowWords, Side};
use word::AbtmTopologyWord;
use word::inner::Bits;

// Whether the column holds the row. The columns of a banded matrix have few words, and the row's is mostly the first: it is tried before a search.
fn holds(column: RowWords, row: usize) -> bool
    requires { row < side_limit }
    ensures { result ≡ held column.entry row }
{
    if column.masks.len() > 0 && column.word_indices[0] == (row / AbtmTopologyWord::BITS) as u32 {
        return word::inner::bit(column.masks[0], row % AbtmTopologyWord::BITS);
    }
    column.contains(row as u64)
}

// Two sides, of which the second has the shape of the first turned round.
#[derive(Clone, Copy)]
pub struct Sides<'a> {
    pub rows: Side<'a>,
    pub columns: Side<'a>,
    ghost turned: { IsSide rows.ncols rows.nrows columns.row_word_ptr.now columns.word_indices.now columns.masks.now },
}

impl Sides<'_> {
    // Whether every column of one word of a row holds the row.
    fn word_turned(self, row: usize, word: AbtmTopologyWord) -> bool
        requires { (row < self.rows.nrows) × (is_word_inside self.rows.ncols word.word_index word.mask ≡ true) }
        ensures { result ≡ every (λ b. flip (pairs self.entry.columns) row (64 * word.word_index + b)) (set_bits word.mask) }
    {
        let first = word.base_col();
        Bits::of(word.mask).all(
            |bit|
                requires { (first + bit < self.columns.nrows) × (row < side_limit) }
                ensures { result ≡ pairs self.entry.columns (first + bit) row }
            { holds(self.columns.row(first + bit as usize), row) },
        )
    }

    // Whether every column of a row holds the row. Its words are read by their positions in two lists, as `side::inner::Side` says.
    fn row_turned(self, row: usize) -> bool
        requires { row < self.rows.nrows }
        ensures { result ≡ within self.entry.rows.ncols (pairs self.entry.rows row) (flip (pairs self.entry.columns) row) }
    {
        let from = self.rows.row_word_ptr[row] as usize;
        let to = self.rows.row_word_ptr[row + 1] as usize;
        (from..to).all(
            |k|
                requires { (row < self.rows.nrows) × (k < length self.rows.masks.now) }
                ensures { result ≡ every (λ b. flip (pairs self.entry.columns) row (64 * get_or self.entry.rows.word_indices.now k 0 + b)) (set_bits (get_or self.entry.rows.masks.now k 0)) }
            {
                let word = AbtmTopologyWord::new(self.rows.word_indices[k], self.rows.masks[k]);
                self.word_turned(row, word)
            },
        )
    }

    // Both sides hold equally many pairs, so it is enough that the columns hold every pair of the rows.
    pub fn is_transpose(self) -> bool
        requires { bits_in self.rows.masks.now 0 (length self.rows.masks.now) ≡ bits_in self.columns.masks.now 0 (length self.columns.masks.now) }
        ensures { result ≡ turned self.entry.rows.nrows self.entry.rows.ncols (pairs self.entry.rows) (pairs self.entry.columns) }
    {
        (0..self.rows.nrows).all(|row| self.row_turned(row))
    }
}
