// Each call of the library as a C function, under its own name and with its own clauses.
// Made by tools/exports from crates/hybit_matrix/src: do not edit.
#![tactic(auto)]

ghost use Rattle.std.specs.Prelude.{◌≡◌, ◌*◌};
ghost use Rattle.base.specs.Sets.{count_below};
ghost use Rattle.word.specs.Bits.{bit_at};
ghost use Rattle.word.specs.Answers.{rank_answer, select_answer};
ghost use Rattle.word.specs.Answers as word;
ghost use Rattle.csr32.specs.Matrix.{matrix_check};
ghost use Rattle.mask.specs.Mask.{mask_check};
ghost use Rattle.mask.specs.Answers.{new_check, new_words, from_check, from_words, empty_answer, count_answer, contains_answer, set_check, set_words, pair_check, combined_words, union, intersection, and_not_of, intersects_answer, indices_answer, indices_list, or_word_words};
ghost use Rattle.hybit_matrix.specs.Flat.{flat_of_checked, flat_of_truth, flat_of_counted, flat_of_selected};

use hybit_matrix::Answer;

pub mod both_sides;
pub mod layout;
pub mod local;
pub mod one_side;
pub mod prepared;
pub mod regions;

// The width of a word, 64.
#[unsafe(no_mangle)]
pub extern "C" fn hybit_word_bits() -> usize
    ensures { result ≡ 64 }
{
    hybit_matrix::hybit_word_bits()
}

// The word's number in its row.
#[unsafe(no_mangle)]
pub extern "C" fn hybit_word_word_index(word_index: u32, mask: u64) -> u32
    ensures { result ≡ word_index }
{
    hybit_matrix::hybit_word_word_index(word_index, mask)
}

// The column of the word's bit 0: 64 times its number.
#[unsafe(no_mangle)]
pub extern "C" fn hybit_word_base_col(word_index: u32, mask: u64) -> usize
    ensures { result ≡ word_index * 64 }
{
    hybit_matrix::hybit_word_base_col(word_index, mask)
}

// The word's bits.
#[unsafe(no_mangle)]
pub extern "C" fn hybit_word_mask(word_index: u32, mask: u64) -> u64
    ensures { result ≡ mask }
{
    hybit_matrix::hybit_word_mask(word_index, mask)
}

// How many bits are set.
#[unsafe(no_mangle)]
pub extern "C" fn hybit_word_popcount(word_index: u32, mask: u64) -> usize
    ensures { result ≡ count_below 64 (bit_at mask) }
{
    hybit_matrix::hybit_word_popcount(word_index, mask)
}

// Whether bit `offset` is set; past 63: no.
#[unsafe(no_mangle)]
pub extern "C" fn hybit_word_contains_offset(word_index: u32, mask: u64, offset: usize) -> bool
    ensures { result ≡ word.contains_answer mask offset }
{
    hybit_matrix::hybit_word_contains_offset(word_index, mask, offset)
}

// value: how many set bits stand below `offset`. Refuses 13 past 64.
#[unsafe(no_mangle)]
pub extern "C" fn hybit_word_rank(word_index: u32, mask: u64, offset: usize) -> Answer
    ensures { result ≡ flat_of_counted (rank_answer mask offset) }
{
    hybit_matrix::hybit_word_rank(word_index, mask, offset)
}

// value: the set bit number `ordinal`, counted from 0; or none.
#[unsafe(no_mangle)]
pub extern "C" fn hybit_word_select(word_index: u32, mask: u64, ordinal: usize) -> Answer
    ensures { result ≡ flat_of_selected (select_answer mask ordinal) }
{
    hybit_matrix::hybit_word_select(word_index, mask, ordinal)
}

// Checks a matrix: 1 to 8.
#[unsafe(no_mangle)]
pub extern "C" fn hybit_csr32_validate(
    nrows: usize,
    ncols: usize,
    row_ptr: &[u32],
    col_idx: &[u32],
    values: &[f64],
) -> Answer
    ensures { result ≡ flat_of_checked (matrix_check nrows ncols row_ptr.now col_idx.now values.now) }
{
    hybit_matrix::hybit_csr32_validate(nrows, ncols, row_ptr, col_idx, values)
}

// Checks a mask: 1, 11, 12. A mask of `len` nodes has exactly `len` / 64 words, rounded up.
#[unsafe(no_mangle)]
pub extern "C" fn hybit_mask_check(len: usize, words: &[u64]) -> Answer
    ensures { result ≡ flat_of_checked (mask_check len words.now) }
{
    hybit_matrix::hybit_mask_check(len, words)
}

// The empty mask in `out`, which needs its words. Refuses 1, 25.
#[unsafe(no_mangle)]
pub extern "C" fn hybit_mask_new(len: usize, out: &mut [u64]) -> Answer
    ensures value { result ≡ flat_of_checked (new_check len out.old) }
    ensures out_after { out.new ≡ new_words len out.old }
{
    hybit_matrix::hybit_mask_new(len, out)
}

// The mask of the indices in `out`, which needs its words. Refuses 1, 13, 25.
#[unsafe(no_mangle)]
pub extern "C" fn hybit_mask_from_indices(len: usize, indices: &[u64], out: &mut [u64]) -> Answer
    ensures value { result ≡ flat_of_checked (from_check len indices.now out.old) }
    ensures out_after { out.new ≡ from_words len indices.now out.old }
{
    hybit_matrix::hybit_mask_from_indices(len, indices, out)
}

// value: 1 if no node is set, else 0. Refuses as the check.
#[unsafe(no_mangle)]
pub extern "C" fn hybit_mask_is_empty(len: usize, words: &[u64]) -> Answer
    ensures { result ≡ flat_of_truth (empty_answer len words.now) }
{
    hybit_matrix::hybit_mask_is_empty(len, words)
}

// value: how many nodes are set. Refuses as the check.
#[unsafe(no_mangle)]
pub extern "C" fn hybit_mask_count_ones(len: usize, words: &[u64]) -> Answer
    ensures { result ≡ flat_of_counted (count_answer len words.now) }
{
    hybit_matrix::hybit_mask_count_ones(len, words)
}

// Sets or clears one node. Refuses as the check, then 13.
#[unsafe(no_mangle)]
pub extern "C" fn hybit_mask_set(len: usize, words: &mut [u64], index: u64, value: bool) -> Answer
    ensures value { result ≡ flat_of_checked (set_check len words.old index) }
    ensures words_after { words.new ≡ set_words len words.old index value }
{
    hybit_matrix::hybit_mask_set(len, words, index, value)
}

// value: 1 if the node is set, else 0; past the length 0. Refuses as the check.
#[unsafe(no_mangle)]
pub extern "C" fn hybit_mask_contains(len: usize, words: &[u64], index: u64) -> Answer
    ensures { result ≡ flat_of_truth (contains_answer len words.now index) }
{
    hybit_matrix::hybit_mask_contains(len, words, index)
}

// Joins the other mask to the first. Refuses as the check, then for the other 11 (its length, its words), 12.
#[unsafe(no_mangle)]
pub extern "C" fn hybit_mask_union_assign(
    len: usize,
    words: &mut [u64],
    other_len: usize,
    other: &[u64],
) -> Answer
    ensures value { result ≡ flat_of_checked (pair_check len words.old other_len other.now) }
    ensures words_after { words.new ≡ combined_words union len words.old other_len other.now }
{
    hybit_matrix::hybit_mask_union_assign(len, words, other_len, other)
}

// Keeps the nodes that both have. Refuses as the union.
#[unsafe(no_mangle)]
pub extern "C" fn hybit_mask_intersect_assign(
    len: usize,
    words: &mut [u64],
    other_len: usize,
    other: &[u64],
) -> Answer
    ensures value { result ≡ flat_of_checked (pair_check len words.old other_len other.now) }
    ensures words_after { words.new ≡ combined_words intersection len words.old other_len other.now }
{
    hybit_matrix::hybit_mask_intersect_assign(len, words, other_len, other)
}

// Takes the other mask's nodes away. Refuses as the union.
#[unsafe(no_mangle)]
pub extern "C" fn hybit_mask_and_not_assign(
    len: usize,
    words: &mut [u64],
    other_len: usize,
    other: &[u64],
) -> Answer
    ensures value { result ≡ flat_of_checked (pair_check len words.old other_len other.now) }
    ensures words_after { words.new ≡ combined_words and_not_of len words.old other_len other.now }
{
    hybit_matrix::hybit_mask_and_not_assign(len, words, other_len, other)
}

// value: 1 if both have a node, else 0. Refuses as the union.
#[unsafe(no_mangle)]
pub extern "C" fn hybit_mask_intersects(
    len: usize,
    words: &[u64],
    other_len: usize,
    other: &[u64],
) -> Answer
    ensures { result ≡ flat_of_truth (intersects_answer len words.now other_len other.now) }
{
    hybit_matrix::hybit_mask_intersects(len, words, other_len, other)
}

// The nodes in rising order in `out`, which needs one place for each; value: how many. Refuses as the check, then 25.
#[unsafe(no_mangle)]
pub extern "C" fn hybit_mask_indices(len: usize, words: &[u64], out: &mut [u64]) -> Answer
    ensures value { result ≡ flat_of_counted (indices_answer len words.now out.old) }
    ensures out_after { out.new ≡ indices_list len words.now out.old }
{
    hybit_matrix::hybit_mask_indices(len, words, out)
}

// Sets the bits in one word; past the last word nothing changes, bits past the length are dropped. Refuses as the check.
#[unsafe(no_mangle)]
pub extern "C" fn hybit_mask_or_word(
    len: usize,
    words: &mut [u64],
    word_index: u64,
    bits: u64,
) -> Answer
    ensures value { result ≡ flat_of_checked (mask_check len words.old) }
    ensures words_after { words.new ≡ or_word_words len words.old word_index bits }
{
    hybit_matrix::hybit_mask_or_word(len, words, word_index, bits)
}
