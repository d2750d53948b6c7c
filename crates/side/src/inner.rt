// The work on the words of a side, for callers that have checked: no part of the API.
ghost use Rattle.std.specs.Prelude.{◌≡◌, ◌≢◌, Err, IfOk, IfErr, ◌&&◌, ltb, ◌+◌, ◌-◌, ◌≤◌, ◌<◌, length, get_or};
ghost use Rattle.std.proofs.Math.Seq.{slice};
ghost use Rattle.base.specs.Checks.{side_limit, entry_limit};
ghost use Rattle.base.specs.Sets.{count_below, members_below};
ghost use Rattle.word.specs.Answers.{entry};
ghost use Rattle.side.specs.Side.{words_of_row, row_holds, word_at};
ghost use Rattle.side.specs.Check.{side_room, bits_in, is_word_inside, bad_word, words_fault, side_fault, Rising, IsRows, IsSide};
ghost use Rattle.side.specs.Row.{lower_in, search_in, Lower, IsRow, Inside, IsWords};

use crate::{AbtmTopology, BadWord, Fault};
use base::Refusal;
use word::AbtmTopologyWord;

// A side that was accepted. Whoever reads a row's words counts positions, and reads both lists there: a position in two lists, for the iterator
// `words()` of the Rust, is one of the forms that are asked for.
#[derive(Clone, Copy)]
pub struct Side<'a> {
    pub nrows: usize,
    pub ncols: usize,
    pub row_word_ptr: &'a [u32],
    pub word_indices: &'a [u32],
    pub masks: &'a [u64],
    ghost accepted: { IsSide nrows ncols row_word_ptr.now word_indices.now masks.now },
}

// The words of one of its rows, whose columns lie below `ncols`.
#[derive(Clone, Copy)]
pub struct RowWords<'a> {
    pub ncols: usize,
    pub word_indices: &'a [u32],
    pub masks: &'a [u64],
    ghost accepted: { IsWords ncols word_indices.now masks.now },
}

impl<'a> AbtmTopology<'a> {
    ghost use Rattle.side.specs.Views.{check_side, check_limits, fault_in, IsLent, SoundSide, AcceptedFrom};

    pub fn accept(self) -> Result<Side<'a>, Refusal>
        ensures refused { IfErr result (λ e. check_side self.entry ≡ Err e) }
        ensures accepted { IfOk result (λ s. (check_side self.entry ≡ Ok tt) × SoundSide self.entry × AcceptedFrom self.entry s) }
    {
        self.validate()?;
        Ok(self.as_side())
    }

    // For a caller that has checked it.
    pub fn as_side(self) -> Side<'a>
        requires { IsLent self }
        ensures { AcceptedFrom self.entry result }
    {
        Side {
            nrows: self.nrows,
            ncols: self.ncols,
            row_word_ptr: self.row_word_ptr,
            word_indices: self.word_indices,
            masks: self.masks,
        }
    }

    // `OverLimit` of one side.
    #[tactic(auto, using(base::proofs::Checks::checks), unfolding(crate::specs::Check::limit_check))]
    pub fn check_limits(self) -> Result<(), Refusal>
        ensures { result ≡ check_limits self.entry }
    {
        if self.nrows > base::SIDE_LIMIT
            || self.ncols > base::SIDE_LIMIT
            || self.word_indices.len() > base::ENTRY_LIMIT
            || self.masks.len() > base::ENTRY_LIMIT
            || self.structural_nnz > base::ENTRY_LIMIT
        {
            return Err(Refusal::OverLimit);
        }
        Ok(())
    }

    // Its first fault, where it is within the limits; its pair count's limit only its soundness needs.
    pub fn fault(self) -> Result<(), Fault>
        requires { (self.nrows ≤ side_limit) × (self.ncols ≤ side_limit) × (length self.masks.now ≤ entry_limit) }
        ensures value { result ≡ fault_in self.entry }
        ensures sound { IfOk result (λ t. self.entry.structural_nnz ≤ entry_limit → SoundSide self.entry) }
    {
        first_fault(
            self.nrows,
            self.ncols,
            self.row_word_ptr,
            self.word_indices,
            self.masks,
            self.structural_nnz,
        )
    }
}

// `ListTooShort` of a side that is written, by the lengths of its lists.
#[tactic(auto, using(base::proofs::Checks::checks), unfolding(crate::specs::Check::side_room))]
pub fn check_room(
    rows: usize,
    words: usize,
    pointers: usize,
    indices: usize,
    masks: usize,
) -> Result<(), Refusal>
    ensures { result ≡ side_room rows words pointers indices masks }
{
    if rows >= pointers || words > indices || words > masks {
        return Err(Refusal::ListTooShort);
    }
    Ok(())
}

// The set bits of the masks from..to: two places, since what callers know is of places of the whole list.
pub fn count_bits(masks: &[u64], from: usize, to: usize) -> usize
    requires { (from ≤ to) × (to ≤ length masks.now) × (to - from ≤ entry_limit) }
    ensures { result ≡ bits_in masks.now from to }
{
    masks[from..to]
        .iter()
        .map(|mask| mask.count_ones() as usize)
        .sum()
}

// Whether no bit of the word, which is not 0, is at or past ncols.
pub fn word_inside(ncols: usize, word: AbtmTopologyWord) -> bool
    requires { (0 < word.mask) × (ncols ≤ side_limit) }
    ensures { result ≡ is_word_inside ncols word.word_index word.mask }
{
    let first = word.base_col();
    if ncols <= first {
        return false;
    }
    let left = ncols - first;
    if left >= AbtmTopologyWord::BITS {
        return true;
    }
    word.mask >> left == 0
}

// The place of the first bad word of a row, or none: of one at from..to the caller cuts the lists, and no list needs another length. The tests read both lists at k, one of them at k - 1 too: `find` would hold the same body.
pub fn first_bad(ncols: usize, word_indices: &[u32], masks: &[u64]) -> Option<usize>
    requires { (ncols ≤ side_limit) × (length word_indices.now ≡ length masks.now) }
    ensures { result ≡ bad_word ncols word_indices.now masks.now }
{
    for k in 0..masks.len() {
        let word = word_indices[k];
        let mask = masks[k];
        if mask == 0
            || k > 0 && word <= word_indices[k - 1]
            || !word_inside(ncols, AbtmTopologyWord::new(word, mask))
        {
            return Some(k);
        }
    }
    None
}

// The first bad word of a side whose lengths and pointers are right.
pub fn check_words(
    nrows: usize,
    ncols: usize,
    row_word_ptr: &[u32],
    word_indices: &[u32],
    masks: &[u64],
) -> Result<(), Fault>
    requires { IsRows nrows row_word_ptr.now word_indices.now masks.now × (ncols ≤ side_limit) }
    ensures { result ≡ words_fault nrows ncols row_word_ptr.now word_indices.now masks.now }
{
    for r in 0..nrows {
        let from = row_word_ptr[r] as usize;
        let to = row_word_ptr[r + 1] as usize;
        if let Some(k) = first_bad(ncols, &word_indices[from..to], &masks[from..to]) {
            return Err(Fault::Word(BadWord {
                row: r as u64,
                position: (from + k) as u64,
            }));
        }
    }
    Ok(())
}

// The first fault of one side within the limits. That words are below 2 ^ 64 is known of a list that is handed in, and not of one in a struct.
#[tactic(auto, unfolding(crate::specs::Check::side_fault, crate::specs::Check::lists_agree))]
fn first_fault(
    nrows: usize,
    ncols: usize,
    row_word_ptr: &[u32],
    word_indices: &[u32],
    masks: &[u64],
    structural_nnz: usize,
) -> Result<(), Fault>
    requires { (nrows ≤ side_limit) × (ncols ≤ side_limit) × (length masks.now ≤ entry_limit) }
    ensures value { result ≡ side_fault nrows ncols row_word_ptr.now word_indices.now masks.now structural_nnz }
    ensures sound { IfOk result (λ t. structural_nnz ≤ entry_limit → IsSide nrows ncols row_word_ptr.now word_indices.now masks.now × (structural_nnz ≡ bits_in masks.now 0 (length masks.now))) }
{
    if row_word_ptr.len() != nrows + 1
        || word_indices.len() != masks.len()
        || row_word_ptr[0] != 0
        || row_word_ptr[nrows] as usize != masks.len()
        || !base::scan::never_falls(row_word_ptr)
        || count_bits(masks, 0, masks.len()) != structural_nnz
    {
        return Err(Fault::Lists);
    }
    check_words(nrows, ncols, row_word_ptr, word_indices, masks)
}

// The first place at or after `from`, and before `to`, whose word is at least `word`, or `to`. Two places, since building searches a part of a list
// that is being written. By the library's `partition_point` it was proved too, and took 5 to 9 % more time: a slower call is a defect.
pub fn lower(word_indices: &[u32], from: usize, to: usize, word: u32) -> usize
    requires { (from ≤ to) × (to ≤ length word_indices.now) × Rising word_indices.now from to }
    ensures place { result ≡ lower_in word_indices.now from to word }
    ensures around { Lower word_indices.now from to word result }
{
    let mut lo = from;
    let mut hi = to;
    while lo < hi {
        let mid = lo + ((hi - lo) >> 1);
        if word_indices[mid] < word {
            lo = mid + 1;
        } else {
            hi = mid;
        }
    }
    lo
}

// Where a word stands at from..to, or else where it would stand.
#[inline]
fn search(word_indices: &[u32], from: usize, to: usize, word: u32) -> Result<usize, usize>
    requires { (from ≤ to) × (to ≤ length word_indices.now) × Rising word_indices.now from to }
    ensures value { result ≡ search_in word_indices.now from to word }
    ensures found { IfOk result (λ k. (from ≤ k) × (k < to) × (get_or word_indices.now k 0 ≡ word)) }
    ensures missing { IfErr result (λ k. Lower word_indices.now from to word k × (k < to → get_or word_indices.now k 0 ≢ word)) }
{
    let at = lower(word_indices, from, to, word);
    if at < to && word_indices[at] == word {
        return Ok(at);
    }
    Err(at)
}

// Whether the row whose words stand at from..to holds the column.
#[inline]
pub fn contains(word_indices: &[u32], masks: &[u64], from: usize, to: usize, col: usize) -> bool
    requires { (from ≤ to) × (to ≤ length word_indices.now) × (to ≤ length masks.now) × Rising word_indices.now from to × (col < side_limit) }
    ensures { result ≡ row_holds word_indices.now masks.now from to col }
{
    let word = (col / AbtmTopologyWord::BITS) as u32;
    match search(word_indices, from, to, word) {
        Ok(at) => word::inner::bit(masks[at], col % AbtmTopologyWord::BITS),
        Err(_) => false,
    }
}

// How many columns of the row whose words stand at from..to lie below `col`.
pub fn rank(word_indices: &[u32], masks: &[u64], from: usize, to: usize, col: usize) -> usize
    requires { (from ≤ to) × (to ≤ length word_indices.now) × (to ≤ length masks.now) × IsRow word_indices.now masks.now from to × (to - from ≤ entry_limit) × (col ≤ side_limit) }
    ensures { result ≡ count_below col (row_holds word_indices.now masks.now from to) }
{
    let word = (col / AbtmTopologyWord::BITS) as u32;
    match search(word_indices, from, to, word) {
        Ok(at) => {
            let below = word::inner::rank(masks[at], col % AbtmTopologyWord::BITS);
            count_bits(masks, from, at) + below as usize
        }
        Err(at) => count_bits(masks, from, at),
    }
}

// The column of the row whose words stand at from..to that has `ordinal` columns before it, or none. The words are read by their positions in two
// lists, as `Side` says.
pub fn select(
    ncols: usize,
    word_indices: &[u32],
    masks: &[u64],
    from: usize,
    to: usize,
    ordinal: u64,
) -> Option<usize>
    requires { (from ≤ to) × (to ≤ length word_indices.now) × (to ≤ length masks.now) × IsRow word_indices.now masks.now from to × Inside ncols word_indices.now masks.now from to }
    ensures { result ≡ entry (members_below ncols (row_holds word_indices.now masks.now from to)) ordinal }
{
    let mut left = ordinal;
    for k in from..to {
        let word = AbtmTopologyWord::new(word_indices[k], masks[k]);
        let count = word.popcount() as u64;
        if left < count {
            let offset = word.select(left as usize)?;
            return Some(word.base_col() + offset);
        }
        left -= count;
    }
    None
}

impl<'a> Side<'a> {
    ghost use Rattle.side.specs.Views.{pairs, held};

    #[tactic(auto, using(base::proofs::Lists::part_slice))]
    pub fn row(self, number: usize) -> RowWords<'a>
        requires { number < self.nrows }
        ensures wide { result.ncols ≡ self.entry.ncols }
        ensures long { length result.masks.now ≡ get_or self.entry.row_word_ptr.now (number + 1) 0 - get_or self.entry.row_word_ptr.now number 0 }
        ensures words { result.word_indices.now ≡ slice (get_or self.entry.row_word_ptr.now number 0) (get_or self.entry.row_word_ptr.now (number + 1) 0) self.entry.word_indices.now }
        ensures bits { result.masks.now ≡ slice (get_or self.entry.row_word_ptr.now number 0) (get_or self.entry.row_word_ptr.now (number + 1) 0) self.entry.masks.now }
        ensures columns { held result ≡ pairs self.entry number }
    {
        let from = self.row_word_ptr[number] as usize;
        let to = self.row_word_ptr[number + 1] as usize;
        RowWords {
            ncols: self.ncols,
            word_indices: &self.word_indices[from..to],
            masks: &self.masks[from..to],
        }
    }
}

impl RowWords<'_> {
    ghost use Rattle.side.specs.Views.{held};

    pub fn count(self) -> u64
        ensures { result ≡ length (words_of_row self.entry.ncols (held self.entry)) }
    {
        self.masks.len() as u64
    }

    // How many columns the row has.
    pub fn popcount(self) -> u64
        ensures { result ≡ count_below self.entry.ncols (held self.entry) }
    {
        count_bits(self.masks, 0, self.masks.len()) as u64
    }

    // Past the end it has no column.
    pub fn contains(self, col: u64) -> bool
        ensures { result ≡ ltb col self.entry.ncols && held self.entry col }
    {
        if col >= self.ncols as u64 {
            return false;
        }
        let to = self.masks.len();
        contains(self.word_indices, self.masks, 0, to, col as usize)
    }

    // How many of its columns lie below `col`.
    pub fn rank(self, col: usize) -> u64
        requires { col ≤ self.ncols }
        ensures { result ≡ count_below col (held self.entry) }
    {
        rank(self.word_indices, self.masks, 0, self.masks.len(), col) as u64
    }

    // The column that has `ordinal` columns before it, or none.
    pub fn select(self, ordinal: u64) -> Option<usize>
        ensures { result ≡ entry (members_below self.entry.ncols (held self.entry)) ordinal }
    {
        let to = self.masks.len();
        select(self.ncols, self.word_indices, self.masks, 0, to, ordinal)
    }

    // Word k, from 0, or none.
    pub fn word(self, k: u64) -> Option<AbtmTopologyWord>
        ensures { result ≡ word_at self.entry.ncols (held self.entry) k }
    {
        if k >= self.masks.len() as u64 {
            return None;
        }
        let at = k as usize;
        Some(AbtmTopologyWord::new(self.word_indices[at], self.masks[at]))
    }
}
