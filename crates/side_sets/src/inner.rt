// Two rows merged word by word, two sides merged row by row, for callers that have checked: no part of the API.
ghost use Rattle.std.specs.Prelude.{◌≡◌, ◌+◌, ◌≤◌, ◌<◌, length};
ghost use Rattle.base.specs.Lists.{over, over_with_zeros};
ghost use Rattle.word.specs.Answers.{on};
ghost use Rattle.side.specs.Side.{side_ptr, side_words, side_masks, side_counts};
ghost use Rattle.side.specs.Check.{IsSide};
ghost use Rattle.side.specs.Views.{pairs, held};
ghost use Rattle.side.specs.Row.{NewRow};
ghost use Rattle.side_sets.specs.Sets.{pairwise_pairs};
ghost use Rattle.side_sets.specs.Merge.{Next, taken_at};

use side::SideCounts;
use side::inner::{RowWords, Side};
use word::Operation;

// A word's mask in a row, 0 where the row does not have it, and the place of the row's next word.
#[derive(Clone, Copy)]
struct Taken {
    mask: u64,
    next: usize,
}

// The smaller of the next words of two rows, of which one at least has a word left. Here and in `take` a place goes with the list, and not the list's
// rest: what is known of a row's words is known by their places.
fn next_word(words_a: &[u32], i: usize, words_b: &[u32], j: usize) -> u32
    requires { (i ≤ length words_a.now) × (j ≤ length words_b.now) × (i + j < length words_a.now + length words_b.now) }
    ensures { Next words_a.now i (length words_a.now) words_b.now j (length words_b.now) result }
{
    if j >= words_b.len() {
        return words_a[i];
    }
    if i >= words_a.len() {
        return words_b[j];
    }
    words_a[i].min(words_b[j])
}

// What a row has for a word, of its words from place k on.
#[tactic(auto, unfolding(crate::specs::Merge::taken_at))]
fn take(words: &[u32], masks: &[u64], k: usize, word: u32) -> Taken
    requires { length words.now ≡ length masks.now }
    ensures { result ≡ taken_at words.now masks.now k (length words.now) word }
{
    if k >= words.len() || words[k] != word {
        return Taken { mask: 0, next: k };
    }
    Taken {
        mask: masks[k],
        next: k + 1,
    }
}

// The row of the columns under the operation of two rows, from place `from` on: a merge, which walks the words of both rows by place. (The lesser
// of the next two words is wanted before either is taken, and with two peekable iterators each turn would ask both as here.) Answers where it ends.
// The rows' lists are taken out of their structs, since the loop writes to lists, and would read the structs again after each write.
fn combine_row(
    a: RowWords,
    b: RowWords,
    op: Operation,
    from: usize,
    word_indices: &mut [u32],
    masks: &mut [u64],
) -> usize
    requires { (from + length a.masks.now + length b.masks.now ≤ length word_indices.old) × (from + length a.masks.now + length b.masks.now ≤ length masks.old) }
    ensures { NewRow (λ c. on op (held a.entry c) (held b.entry c)) word_indices.old masks.old word_indices.new masks.new from result (from + length a.entry.masks.now + length b.entry.masks.now) }
{
    let words_a = a.word_indices;
    let masks_a = a.masks;
    let words_b = b.word_indices;
    let masks_b = b.masks;
    let mut i = 0;
    let mut j = 0;
    let mut to = from;
    while i + j < words_a.len() + words_b.len() {
        let word = next_word(words_a, i, words_b, j);
        let left = take(words_a, masks_a, i, word);
        let right = take(words_b, masks_b, j, word);
        i = left.next;
        j = right.next;
        let mask = op.apply(left.mask, right.mask);
        if mask == 0 {
            continue;
        }
        word_indices[to] = word;
        masks[to] = mask;
        to += 1;
    }
    to
}

// The side of the pairs under the operation. It needs as many words as both sides have together. Lists that are written are handed in one by one:
// each has an equation, and in a struct behind `&mut` each contract would say besides that the references stay.
pub fn combine(
    a: Side,
    b: Side,
    op: Operation,
    row_word_ptr: &mut [u32],
    word_indices: &mut [u32],
    masks: &mut [u64],
) -> SideCounts
    requires { IsSide a.nrows a.ncols b.row_word_ptr.now b.word_indices.now b.masks.now × (a.nrows < length row_word_ptr.old) × (length a.masks.now + length b.masks.now ≤ length word_indices.old) × (length a.masks.now + length b.masks.now ≤ length masks.old) }
    ensures value { result ≡ side_counts a.entry.nrows a.entry.ncols (pairwise_pairs (on op) (pairs a.entry) (pairs b.entry)) }
    ensures pointers { row_word_ptr.new ≡ over (side_ptr a.entry.nrows a.entry.ncols (pairwise_pairs (on op) (pairs a.entry) (pairs b.entry))) row_word_ptr.old }
    ensures words { word_indices.new ≡ over_with_zeros (side_words a.entry.nrows a.entry.ncols (pairwise_pairs (on op) (pairs a.entry) (pairs b.entry))) (length a.entry.masks.now + length b.entry.masks.now) word_indices.old }
    ensures masked { masks.new ≡ over_with_zeros (side_masks a.entry.nrows a.entry.ncols (pairwise_pairs (on op) (pairs a.entry) (pairs b.entry))) (length a.entry.masks.now + length b.entry.masks.now) masks.old }
{
    row_word_ptr[0] = 0;
    let mut to: usize = 0;
    let mut pairs: u64 = 0;
    for row in 0..a.nrows {
        let end = combine_row(a.row(row), b.row(row), op, to, word_indices, masks);
        pairs += side::inner::count_bits(masks, to, end) as u64;
        row_word_ptr[row + 1] = end as u32;
        to = end;
    }
    let needed = a.masks.len() + b.masks.len();
    word_indices[to..needed].fill(0);
    masks[to..needed].fill(0);
    SideCounts {
        words: to as u64,
        pairs,
    }
}
