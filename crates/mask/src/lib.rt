// A mask: a length, and 64-bit words; node i is bit i mod 64 of word i / 64. The functions of DofMask on a lent word list.
#![tactic(auto, using(crate::proofs::Masks::answers), unfolding(crate::specs::Mask::mask_check, crate::specs::Answers::set_check, crate::specs::Answers::pair_check, crate::specs::Answers::indices_check, crate::specs::Answers::new_check, crate::specs::Answers::from_check))]

ghost use Rattle.std.specs.Prelude.{◌≡◌, IfOk, IfErr, Err};
ghost use Rattle.word.specs.Answers.{on};
ghost use Rattle.mask.specs.Mask.{mask_check, IsMask};
ghost use Rattle.mask.specs.Answers.{new_check, new_words, from_check, from_words, set_check, set_words, pair_check, combined_words, union, intersection, and_not_of, or_word_words};

use base::Refusal;
use inner::Mask;
use word::{AbtmTopologyWord, Operation};

pub mod inner;

// The words of the largest mask that is accepted, for arrays that hold one.
pub const LARGEST_WORDS: usize = base::SIDE_LIMIT / AbtmTopologyWord::BITS;

// A mask as a caller lends it.
#[derive(Clone, Copy)]
pub struct DofMask<'a> {
    pub len: usize,
    pub words: &'a [u64],
}

// The test for room and the cut stand here and in each function that writes the front of a list: as one function it would hand a part of the list
// back, and each promise of a whole list would go through that.
pub fn new(len: usize, out: &mut [u64]) -> Result<(), Refusal>
    ensures value { result ≡ new_check len out.old }
    ensures out_after { out.new ≡ new_words len out.old }
{
    if len > base::SIDE_LIMIT {
        return Err(Refusal::OverLimit);
    }
    let need = inner::words_for(len);
    if out.len() < need {
        return Err(Refusal::ListTooShort);
    }
    inner::clear(len, &mut out[..need]);
    Ok(())
}

pub fn from_indices(len: usize, indices: &[u64], out: &mut [u64]) -> Result<(), Refusal>
    ensures value { result ≡ from_check len indices.now out.old }
    ensures out_after { out.new ≡ from_words len indices.now out.old }
{
    if len > base::SIDE_LIMIT {
        return Err(Refusal::OverLimit);
    }
    if !base::scan::all_below(indices, len) {
        return Err(Refusal::OutOfRange);
    }
    let need = inner::words_for(len);
    if out.len() < need {
        return Err(Refusal::ListTooShort);
    }
    inner::fill(len, indices, &mut out[..need]);
    Ok(())
}

impl DofMask<'_> {
    ghost use Rattle.mask.specs.Views.{check_mask, answer_empty, answer_count, answer_contains, answer_intersects, answer_indices, list_indices};

    // A mask on its own: `OverLimit`, `WrongLength` for its word count, `BitPastLength`.
    pub fn check(self) -> Result<(), Refusal>
        ensures value { result ≡ check_mask self.entry }
        ensures accepted { IfOk result (λ t. IsMask self.entry.len self.entry.words.now) }
    {
        if self.len > base::SIDE_LIMIT {
            return Err(Refusal::OverLimit);
        }
        inner::check_shape(self.len, self.words)
    }

    pub fn is_empty(self) -> Result<bool, Refusal>
        ensures { result ≡ answer_empty self.entry }
    {
        let mask = self.accept()?;
        Ok(!mask.any_node())
    }

    pub fn count_ones(self) -> Result<u64, Refusal>
        ensures { result ≡ answer_count self.entry }
    {
        let mask = self.accept()?;
        Ok(mask.count())
    }

    // Past the length the answer is no.
    pub fn contains(self, index: u64) -> Result<bool, Refusal>
        ensures { result ≡ answer_contains self.entry index }
    {
        let mask = self.accept()?;
        Ok(index < mask.len as u64 && mask.holds(index as usize))
    }

    pub fn intersects(self, other: DofMask) -> Result<bool, Refusal>
        ensures { result ≡ answer_intersects self.entry other.entry }
    {
        let (mask, other) = self.accept_pair(other)?;
        Ok(mask.any_common(other))
    }

    // The members in rising order; answers their count.
    pub fn indices(self, out: &mut [u64]) -> Result<u64, Refusal>
        ensures value { result ≡ answer_indices self.entry out.old }
        ensures out_after { out.new ≡ list_indices self.entry out.old }
    {
        let mask = self.accept()?;
        let count = mask.count();
        if (out.len() as u64) < count {
            return Err(Refusal::ListTooShort);
        }
        mask.write_members(out);
        Ok(count)
    }
}

impl<'a> DofMask<'a> {
    ghost use Rattle.mask.specs.Views.{check_pair, AcceptedFrom};

    // The first, then the second with its length against the first's.
    fn accept_pair<'b>(self, other: DofMask<'b>) -> Result<(Mask<'a>, Mask<'b>), Refusal>
        ensures refused { IfErr result (λ e. check_pair self.entry other.entry ≡ Err e) }
        ensures accepted { IfOk result (λ m. (check_pair self.entry other.entry ≡ Ok tt) × (m.1.len ≡ m.0.len) × AcceptedFrom self.entry m.0 × AcceptedFrom other.entry m.1) }
    {
        let mask = self.accept()?;
        let other = other.accept_of(mask.len)?;
        Ok((mask, other))
    }
}

// A mask that is written is a length and a list: the list has an equation, and in a struct behind `&mut` each contract would say besides that the
// reference stays. `value` says whether the node is in afterwards, as in the Rust.
pub fn set(len: usize, words: &mut [u64], index: u64, value: bool) -> Result<(), Refusal>
    ensures value { result ≡ set_check len words.old index }
    ensures words_after { words.new ≡ set_words len words.old index value }
{
    DofMask { len, words }.check()?;
    if index >= len as u64 {
        return Err(Refusal::OutOfRange);
    }
    inner::put(len, words, index as usize, value);
    Ok(())
}

pub fn union_assign(len: usize, words: &mut [u64], other: DofMask) -> Result<(), Refusal>
    ensures value { result ≡ pair_check len words.old other.entry.len other.entry.words.now }
    ensures words_after { words.new ≡ combined_words union len words.old other.entry.len other.entry.words.now }
{
    combine_assign(len, words, other, Operation::Union)
}

pub fn intersect_assign(len: usize, words: &mut [u64], other: DofMask) -> Result<(), Refusal>
    ensures value { result ≡ pair_check len words.old other.entry.len other.entry.words.now }
    ensures words_after { words.new ≡ combined_words intersection len words.old other.entry.len other.entry.words.now }
{
    combine_assign(len, words, other, Operation::Intersection)
}

pub fn and_not_assign(len: usize, words: &mut [u64], other: DofMask) -> Result<(), Refusal>
    ensures value { result ≡ pair_check len words.old other.entry.len other.entry.words.now }
    ensures words_after { words.new ≡ combined_words and_not_of len words.old other.entry.len other.entry.words.now }
{
    combine_assign(len, words, other, Operation::AndNot)
}

fn combine_assign(
    len: usize,
    words: &mut [u64],
    other: DofMask,
    op: Operation,
) -> Result<(), Refusal>
    ensures value { result ≡ pair_check len words.old other.entry.len other.entry.words.now }
    ensures words_after { words.new ≡ combined_words (on op) len words.old other.entry.len other.entry.words.now }
{
    let (_, other) = DofMask { len, words }.accept_pair(other)?;
    inner::combine(len, words, other.words, op);
    Ok(())
}

// Past the words nothing changes, and bits past the length are dropped.
pub fn or_word(len: usize, words: &mut [u64], word_index: u64, bits: u64) -> Result<(), Refusal>
    ensures value { result ≡ mask_check len words.old }
    ensures words_after { words.new ≡ or_word_words len words.old word_index bits }
{
    DofMask { len, words }.check()?;
    inner::or_word(len, words, word_index as usize, bits);
    Ok(())
}
