// Every public call as one function over lists, its answer as one flat record of numbers and flags: C has neither slices nor enums with values, so
// lists that belong together and the records stay as they are here. Functions that are alike but for the call that they make stay as well: each is a
// name of C's, with a record of its own. The static library hybit_matrix_c exports each for C. A clause names all lists of its call in C's order,
// which makes those of a plan and of a prepared region long.
#![tactic(auto)]

ghost use Rattle.std.specs.Prelude.{◌≡◌, ◌*◌};
ghost use Rattle.base.specs.Sets.{count_below, one_if};
ghost use Rattle.word.specs.Bits.{bit_at};
ghost use Rattle.word.specs.Answers.{rank_answer, select_answer};
ghost use Rattle.word.specs.Answers as word;
ghost use Rattle.csr32.specs.Matrix.{matrix_check};
ghost use Rattle.mask.specs.Mask.{mask_check};
ghost use Rattle.mask.specs.Answers.{new_check, new_words, from_check, from_words, empty_answer, count_answer, contains_answer, set_check, set_words, pair_check, combined_words, union, intersection, and_not_of, intersects_answer, indices_answer, indices_list, or_word_words};
ghost use Rattle.hybit_matrix.specs.Flat.{flat_of, flat_of_some, answer_refused, answer_of_number, answered_none, pair_answer_refused, pair_answer_of, pair_answer_none, flat_of_checked, flat_of_truth, flat_of_counted, flat_of_selected};

use base::Refusal;
use word::AbtmTopologyWord;

pub mod both_sides;
pub mod layout;
pub mod local;
pub mod one_side;
pub mod prepared;
pub mod regions;
mod views;

// number: the refusal's number, or 0. present: there is an answer (false after a refusal, and where the answer is none).
// value: the count, the bit, or 1 for yes and 0 for no.
#[repr(C)]
#[derive(Clone, Copy, Default)]
pub struct Answer {
    pub number: u32,
    pub present: bool,
    pub expected: u64,
    pub actual: u64,
    pub value: u64,
}

// An answer of two numbers, named at each call. The rest is as in `Answer`.
#[repr(C)]
#[derive(Clone, Copy, Default)]
pub struct PairAnswer {
    pub number: u32,
    pub present: bool,
    pub expected: u64,
    pub actual: u64,
    pub first: u64,
    pub second: u64,
}

// A refusal as a record of C's: its number and figures, all else as in the default. The records hold these one by one and in no struct, because C
// reads them flat.
macro_rules! refused {
    ($refusal:ident) => {
        Self {
            number: $refusal.number(),
            expected: $refusal.expected(),
            actual: $refusal.actual(),
            ..Self::default()
        }
    };
}

pub(crate) use refused;

// A value that is no refusal, as the record of an answer that has it. What a `From` promises is a relation; this is a function, so that the
// conversions of any such value, which stand on it, promise an equation.
pub trait Flat<R> {
    ghost flat_record: { Self → R };

    fn flat(self) -> R
        ensures { result ≡ flat_record self };
}

impl From<Refusal> for Answer {
    ghost from_gives = { λ r a. a ≡ answer_refused r };

    fn from(r: Refusal) -> Self {
        refused!(r)
    }
}

impl Flat<Answer> for u64 {
    ghost flat_record = { answer_of_number };

    fn flat(self) -> Answer {
        Answer {
            present: true,
            value: self,
            ..Answer::default()
        }
    }
}

impl Flat<Answer> for usize {
    ghost flat_record = { answer_of_number };

    fn flat(self) -> Answer {
        (self as u64).flat()
    }
}

impl Flat<Answer> for bool {
    ghost flat_record = { λ b. answer_of_number (one_if b) };

    fn flat(self) -> Answer {
        u64::from(self).flat()
    }
}

impl Flat<Answer> for () {
    ghost flat_record = { λ _. answer_of_number 0 };

    fn flat(self) -> Answer {
        0u64.flat()
    }
}

// Here and below, one impl for each of the two records: of a `Default` of any record only a relation is known, so an equation for any record would
// ask for a trait of the record of none, whose two impls are as long as the one that they spare.
impl<T: Flat<Answer>> Flat<Answer> for Option<T> {
    ghost flat_record = { flat_of_some T.Flat.flat_record answered_none };

    #[tactic(auto, unfolding(crate::specs::Flat::flat_of_some))]
    fn flat(self) -> Answer {
        match self {
            Some(x) => x.flat(),
            None => Answer::default(),
        }
    }
}

impl<T: Flat<Answer>> From<Result<T, Refusal>> for Answer {
    ghost from_gives = { λ r a. a ≡ flat_of T.Flat.flat_record answer_refused r };

    #[tactic(auto, unfolding(crate::specs::Flat::flat_of))]
    fn from(r: Result<T, Refusal>) -> Self {
        match r {
            Ok(x) => x.flat(),
            Err(e) => e.into(),
        }
    }
}

impl From<Refusal> for PairAnswer {
    ghost from_gives = { λ r a. a ≡ pair_answer_refused r };

    fn from(r: Refusal) -> Self {
        refused!(r)
    }
}

impl Flat<PairAnswer> for (u64, u64) {
    ghost flat_record = { λ p. pair_answer_of p.0 p.1 };

    fn flat(self) -> PairAnswer {
        PairAnswer {
            present: true,
            first: self.0,
            second: self.1,
            ..PairAnswer::default()
        }
    }
}

impl<T: Flat<PairAnswer>> Flat<PairAnswer> for Option<T> {
    ghost flat_record = { flat_of_some T.Flat.flat_record pair_answer_none };

    #[tactic(auto, unfolding(crate::specs::Flat::flat_of_some))]
    fn flat(self) -> PairAnswer {
        match self {
            Some(x) => x.flat(),
            None => PairAnswer::default(),
        }
    }
}

impl<T: Flat<PairAnswer>> From<Result<T, Refusal>> for PairAnswer {
    ghost from_gives = { λ r a. a ≡ flat_of T.Flat.flat_record pair_answer_refused r };

    #[tactic(auto, unfolding(crate::specs::Flat::flat_of))]
    fn from(r: Result<T, Refusal>) -> Self {
        match r {
            Ok(x) => x.flat(),
            Err(e) => e.into(),
        }
    }
}

// The width of a word, 64.
pub fn hybit_word_bits() -> usize
    ensures { result ≡ 64 }
{
    AbtmTopologyWord::BITS
}

// The word's number in its row.
pub fn hybit_word_word_index(word_index: u32, mask: u64) -> u32
    ensures { result ≡ word_index }
{
    AbtmTopologyWord::new(word_index, mask).word_index()
}

// The column of the word's bit 0: 64 times its number.
pub fn hybit_word_base_col(word_index: u32, mask: u64) -> usize
    ensures { result ≡ word_index * 64 }
{
    AbtmTopologyWord::new(word_index, mask).base_col()
}

// The word's bits.
pub fn hybit_word_mask(word_index: u32, mask: u64) -> u64
    ensures { result ≡ mask }
{
    AbtmTopologyWord::new(word_index, mask).mask()
}

// How many bits are set.
pub fn hybit_word_popcount(word_index: u32, mask: u64) -> usize
    ensures { result ≡ count_below 64 (bit_at mask) }
{
    AbtmTopologyWord::new(word_index, mask).popcount()
}

// Whether bit `offset` is set; past 63: no.
pub fn hybit_word_contains_offset(word_index: u32, mask: u64, offset: usize) -> bool
    ensures { result ≡ word.contains_answer mask offset }
{
    AbtmTopologyWord::new(word_index, mask).contains_offset(offset)
}

// value: how many set bits stand below `offset`. Refuses 13 past 64.
pub fn hybit_word_rank(word_index: u32, mask: u64, offset: usize) -> Answer
    ensures { result ≡ flat_of_counted (rank_answer mask offset) }
{
    AbtmTopologyWord::new(word_index, mask).rank(offset).into()
}

// value: the set bit number `ordinal`, counted from 0; or none.
pub fn hybit_word_select(word_index: u32, mask: u64, ordinal: usize) -> Answer
    ensures { result ≡ flat_of_selected (select_answer mask ordinal) }
{
    AbtmTopologyWord::new(word_index, mask)
        .select(ordinal)
        .flat()
}

// Checks a matrix: 1 to 8.
pub fn hybit_csr32_validate(
    nrows: usize,
    ncols: usize,
    row_ptr: &[u32],
    col_idx: &[u32],
    values: &[f64],
) -> Answer
    ensures { result ≡ flat_of_checked (matrix_check nrows ncols row_ptr.now col_idx.now values.now) }
{
    views::matrix(nrows, ncols, row_ptr, col_idx, values)
        .validate()
        .into()
}

// Checks a mask: 1, 11, 12. A mask of `len` nodes has exactly `len` / 64 words, rounded up.
pub fn hybit_mask_check(len: usize, words: &[u64]) -> Answer
    ensures { result ≡ flat_of_checked (mask_check len words.now) }
{
    views::mask(len, words).check().into()
}

// The empty mask in `out`, which needs its words. Refuses 1, 25.
pub fn hybit_mask_new(len: usize, out: &mut [u64]) -> Answer
    ensures value { result ≡ flat_of_checked (new_check len out.old) }
    ensures out_after { out.new ≡ new_words len out.old }
{
    mask::new(len, out).into()
}

// The mask of the indices in `out`, which needs its words. Refuses 1, 13, 25.
pub fn hybit_mask_from_indices(len: usize, indices: &[u64], out: &mut [u64]) -> Answer
    ensures value { result ≡ flat_of_checked (from_check len indices.now out.old) }
    ensures out_after { out.new ≡ from_words len indices.now out.old }
{
    mask::from_indices(len, indices, out).into()
}

// value: 1 if no node is set, else 0. Refuses as the check.
pub fn hybit_mask_is_empty(len: usize, words: &[u64]) -> Answer
    ensures { result ≡ flat_of_truth (empty_answer len words.now) }
{
    views::mask(len, words).is_empty().into()
}

// value: how many nodes are set. Refuses as the check.
pub fn hybit_mask_count_ones(len: usize, words: &[u64]) -> Answer
    ensures { result ≡ flat_of_counted (count_answer len words.now) }
{
    views::mask(len, words).count_ones().into()
}

// Sets or clears one node. Refuses as the check, then 13.
pub fn hybit_mask_set(len: usize, words: &mut [u64], index: u64, value: bool) -> Answer
    ensures value { result ≡ flat_of_checked (set_check len words.old index) }
    ensures words_after { words.new ≡ set_words len words.old index value }
{
    mask::set(len, words, index, value).into()
}

// value: 1 if the node is set, else 0; past the length 0. Refuses as the check.
pub fn hybit_mask_contains(len: usize, words: &[u64], index: u64) -> Answer
    ensures { result ≡ flat_of_truth (contains_answer len words.now index) }
{
    views::mask(len, words).contains(index).into()
}

// Joins the other mask to the first. Refuses as the check, then for the other 11 (its length, its words), 12.
pub fn hybit_mask_union_assign(
    len: usize,
    words: &mut [u64],
    other_len: usize,
    other: &[u64],
) -> Answer
    ensures value { result ≡ flat_of_checked (pair_check len words.old other_len other.now) }
    ensures words_after { words.new ≡ combined_words union len words.old other_len other.now }
{
    mask::union_assign(len, words, views::mask(other_len, other)).into()
}

// Keeps the nodes that both have. Refuses as the union.
pub fn hybit_mask_intersect_assign(
    len: usize,
    words: &mut [u64],
    other_len: usize,
    other: &[u64],
) -> Answer
    ensures value { result ≡ flat_of_checked (pair_check len words.old other_len other.now) }
    ensures words_after { words.new ≡ combined_words intersection len words.old other_len other.now }
{
    mask::intersect_assign(len, words, views::mask(other_len, other)).into()
}

// Takes the other mask's nodes away. Refuses as the union.
pub fn hybit_mask_and_not_assign(
    len: usize,
    words: &mut [u64],
    other_len: usize,
    other: &[u64],
) -> Answer
    ensures value { result ≡ flat_of_checked (pair_check len words.old other_len other.now) }
    ensures words_after { words.new ≡ combined_words and_not_of len words.old other_len other.now }
{
    mask::and_not_assign(len, words, views::mask(other_len, other)).into()
}

// value: 1 if both have a node, else 0. Refuses as the union.
pub fn hybit_mask_intersects(len: usize, words: &[u64], other_len: usize, other: &[u64]) -> Answer
    ensures { result ≡ flat_of_truth (intersects_answer len words.now other_len other.now) }
{
    views::mask(len, words)
        .intersects(views::mask(other_len, other))
        .into()
}

// The nodes in rising order in `out`, which needs one place for each; value: how many. Refuses as the check, then 25.
pub fn hybit_mask_indices(len: usize, words: &[u64], out: &mut [u64]) -> Answer
    ensures value { result ≡ flat_of_counted (indices_answer len words.now out.old) }
    ensures out_after { out.new ≡ indices_list len words.now out.old }
{
    views::mask(len, words).indices(out).into()
}

// Sets the bits in one word; past the last word nothing changes, bits past the length are dropped. Refuses as the check.
pub fn hybit_mask_or_word(len: usize, words: &mut [u64], word_index: u64, bits: u64) -> Answer
    ensures value { result ≡ flat_of_checked (mask_check len words.old) }
    ensures words_after { words.new ≡ or_word_words len words.old word_index bits }
{
    mask::or_word(len, words, word_index, bits).into()
}
