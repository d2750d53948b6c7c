// The work of a mask's functions, for callers that have checked: no part of the API. Where the code has no use for `len`, the contract has:
// it says which mask the words are. Words that are written are handed in as a list: it has an equation, and in a struct behind `&mut` each contract
// would say besides that the reference stays.
#![tactic(auto, using(crate::proofs::Stores::stores))]

ghost use Rattle.std.specs.Prelude.{◌≡◌, IfOk, IfErr, Err, true, false, ◌&&◌, ◌+◌, ◌-◌, ◌<◌, ◌≤◌, ◌*◌, length, ltb};
ghost use Rattle.std.specs.Iterator.{at_most};
ghost use Rattle.base.specs.Checks.{side_limit};
ghost use Rattle.base.specs.Lists.{every, below, is_in, over};
ghost use Rattle.base.specs.Sets.{between, any_below, count_below, members_below};
ghost use Rattle.word.specs.Bits.{word_of};
ghost use Rattle.word.specs.Answers.{on};
ghost use Rattle.mask.specs.Mask.{words_needed, mask_words, shape_check, length_check, IsMask};
ghost use Rattle.mask.specs.Answers.{with_node, with_word, with_range, combined};

use crate::DofMask;
use base::Refusal;
use word::inner::Bits;
use word::{AbtmTopologyWord, Operation};

// A mask that was accepted.
#[derive(Clone, Copy)]
pub struct Mask<'a> {
    pub len: usize,
    pub words: &'a [u64],
    ghost accepted: { IsMask len words.now },
}

impl<'a> DofMask<'a> {
    ghost use Rattle.mask.specs.Views.{check_mask, check_length, AcceptedFrom};

    // What `check` accepts.
    pub fn accept(self) -> Result<Mask<'a>, Refusal>
        ensures refused { IfErr result (λ e. check_mask self.entry ≡ Err e) }
        ensures accepted { IfOk result (λ m. (check_mask self.entry ≡ Ok tt) × AcceptedFrom self.entry m) }
    {
        self.check()?;
        Ok(Mask {
            len: self.len,
            words: self.words,
        })
    }

    // A mask that must have a length.
    pub fn accept_of(self, expected: usize) -> Result<Mask<'a>, Refusal>
        requires { expected ≤ side_limit }
        ensures refused { IfErr result (λ e. check_length expected self.entry ≡ Err e) }
        ensures accepted { IfOk result (λ m. (check_length expected self.entry ≡ Ok tt) × (self.entry.len ≡ expected) × AcceptedFrom self.entry m) }
    {
        check_length(expected, self.len, self.words)?;
        Ok(Mask {
            len: self.len,
            words: self.words,
        })
    }
}

impl<'a> Mask<'a> {
    ghost use Rattle.mask.specs.Views.{nodes};
    ghost use Rattle.mask.specs.Walk.{next_member_of};

    pub fn copy(self, out: &mut [u64])
        requires { length out.old ≡ words_needed self.len }
        ensures { out.new ≡ self.entry.words.now }
    {
        out.copy_from_slice(self.words);
    }

    pub fn holds(self, index: usize) -> bool
        requires { index < self.len }
        ensures { result ≡ nodes self.entry index }
    {
        word::inner::bit(
            self.words[index / AbtmTopologyWord::BITS],
            index % AbtmTopologyWord::BITS,
        )
    }

    pub fn any_node(self) -> bool
        ensures { result ≡ any_below self.entry.len (nodes self.entry) }
    {
        self.words.iter().any(|word| *word != 0)
    }

    // The words are numbered, and the other's indexed: as a `zip` of both lists the pass took 40 to 50 % more time, and a slower call is a defect.
    pub fn any_common(self, other: Mask) -> bool
        requires { other.len ≡ self.len }
        ensures { result ≡ any_below self.entry.len (λ i. nodes self.entry i && nodes other.entry i) }
    {
        for (w, word) in self.words.iter().enumerate() {
            if *word & other.words[w] != 0 {
                return true;
            }
        }
        false
    }

    pub fn count(self) -> u64
        ensures { result ≡ count_below self.entry.len (nodes self.entry) }
    {
        self.words.iter().map(|word| word.count_ones() as u64).sum()
    }

    // The first member at or after `from`, or the length: closing in field_region goes on from the answer, whether it is a member or the end. Words
    // without a member are passed over whole, and the place of the first that has one is wanted with its bits, which `position` would not give.
    #[tactic(auto, using(crate::proofs::Nexts::walking))]
    pub fn next_member(self, from: usize) -> usize
        requires { from ≤ self.len }
        ensures { result ≡ next_member_of self.entry.len self.entry.words.now from }
    {
        if from == self.len {
            return self.len;
        }
        let first = from / AbtmTopologyWord::BITS;
        let ahead = self.words[first] >> (from % AbtmTopologyWord::BITS);
        if ahead != 0 {
            return from + ahead.trailing_zeros() as usize;
        }
        for w in first + 1..self.words.len() {
            let bits = self.words[w];
            if bits != 0 {
                return w * AbtmTopologyWord::BITS + bits.trailing_zeros() as usize;
            }
        }
        self.len
    }

    // A walk over the members in rising order, from the first on.
    pub fn members(self) -> Members<'a>
        ensures mask { result.mask ≡ self.entry }
        ensures at { result.at ≡ 0 }
    {
        Members { mask: self, at: 0 }
    }

    // The members in rising order at the front of `out`, which has room for them. By words: `members` reads its word again for each.
    pub fn write_members(self, out: &mut [u64])
        requires { count_below self.len (nodes self) ≤ length out.old }
        ensures { out.new ≡ over (members_below self.entry.len (nodes self.entry)) out.old }
    {
        let mut n: usize = 0;
        for (w, word) in self.words.iter().enumerate() {
            let first = (w * AbtmTopologyWord::BITS) as u64;
            for bit in Bits::of(*word) {
                out[n] = first + bit as u64;
                n += 1;
            }
        }
    }
}

// A walk over a mask's members: those at or after a place are left.
#[derive(Drop)]
pub struct Members<'a> {
    mask: Mask<'a>,
    at: usize,
    ghost within: { at ≤ mask.len },
}

impl Iterator for Members<'_> {
    ghost use Rattle.mask.specs.Walk.{StepsOn};

    type Item = usize;

    ghost next_gives = { StepsOn };

    ghost remaining = { λ s. at_most (s.mask.len - s.at) };

    fn next(&mut self) -> Option<usize> {
        let member = self.mask.next_member(self.at);
        if member == self.mask.len {
            return None;
        }
        self.at = member + 1;
        Some(member)
    }
}

pub fn words_for(len: usize) -> usize
    requires { len ≤ side_limit }
    ensures { result ≡ words_needed len }
{
    len.div_ceil(AbtmTopologyWord::BITS)
}

// The word count and the bits past the length.
#[tactic(auto, using(crate::proofs::Shape::shapes), unfolding(crate::specs::Mask::shape_check))]
pub fn check_shape(len: usize, words: &[u64]) -> Result<(), Refusal>
    requires { len ≤ side_limit }
    ensures value { result ≡ shape_check len words.now }
    ensures accepted { IfOk result (λ t. IsMask len words.now) }
{
    let need = words_for(len);
    base::must_be(need, words.len())?;
    let spare = len % AbtmTopologyWord::BITS;
    if spare == 0 {
        return Ok(());
    }
    if words[need - 1] >> spare != 0 {
        return Err(Refusal::BitPastLength);
    }
    Ok(())
}

// A mask against the length that it must have.
#[tactic(auto, using(base::proofs::Checks::checks), unfolding(crate::specs::Mask::length_check))]
pub fn check_length(expected: usize, len: usize, words: &[u64]) -> Result<(), Refusal>
    requires { expected ≤ side_limit }
    ensures value { result ≡ length_check expected len words.now }
    ensures accepted { IfOk result (λ t. (len ≡ expected) × IsMask expected words.now) }
{
    base::must_be(expected, len)?;
    check_shape(len, words)
}

pub fn clear(len: usize, words: &mut [u64])
    requires { length words.old ≡ words_needed len }
    ensures { words.new ≡ mask_words len (λ i. false) }
{
    words.fill(0);
}

// `value` is data of the caller, as in the Rust: whether the node is in afterwards.
pub fn put(len: usize, words: &mut [u64], index: usize, value: bool)
    requires { IsMask len words.old × (index < len) }
    ensures { words.new ≡ with_node len words.old index value }
{
    let w = index / AbtmTopologyWord::BITS;
    let bit = 1u64 << (index % AbtmTopologyWord::BITS);
    if value {
        words[w] |= bit;
    } else {
        words[w] &= !bit;
    }
}

// The mask of the indices, on a list of exactly its words.
#[tactic(auto, using(crate::proofs::Stores::filling), unfolding(base::specs::Lists::is_in))]
pub fn fill(len: usize, indices: &[u64], words: &mut [u64])
    requires { (len ≤ side_limit) × (every (below len) indices.now ≡ true) × (length words.old ≡ words_needed len) }
    ensures { words.new ≡ mask_words len (λ i. is_in i indices.now) }
{
    clear(len, words);
    for index in indices {
        put(len, words, *index as usize, true);
    }
}

// The words are numbered here too: as a `zip` of both lists the proof was tried and did not close, since what the pass leaves in `words` then
// has no name that an answer may cite.
#[tactic(auto, using(crate::proofs::Passes::combining))]
pub fn combine(len: usize, words: &mut [u64], other: &[u64], op: Operation)
    requires { IsMask len words.old × IsMask len other.now }
    ensures { words.new ≡ combined (on op) len words.old other.now }
{
    for (w, word) in words.iter_mut().enumerate() {
        *word = op.apply(*word, other[w]);
    }
}

// The bits of word w that lie below the bound.
pub fn bits_below(bound: usize, w: usize) -> u64
    requires { (bound ≤ side_limit) × (w ≤ side_limit) }
    ensures { result ≡ word_of (λ i. ltb i bound) w }
{
    let first = w * AbtmTopologyWord::BITS;
    if bound <= first {
        return 0;
    }
    let left = bound - first;
    if left >= AbtmTopologyWord::BITS {
        return u64::MAX;
    }
    (1u64 << left) - 1
}

// The bits of word w that lie from `start` up to `end`.
pub fn bits_between(start: usize, end: usize, w: usize) -> u64
    requires { (start ≤ side_limit) × (end ≤ side_limit) × (w ≤ side_limit) }
    ensures { result ≡ word_of (between start end) w }
{
    bits_below(end, w) & !bits_below(start, w)
}

pub fn or_word(len: usize, words: &mut [u64], w: usize, bits: u64)
    requires { IsMask len words.old }
    ensures { words.new ≡ with_word len words.old w bits }
{
    if w >= words.len() {
        return;
    }
    words[w] |= bits & bits_below(len, w);
}

// The nodes from `start` up to `end` join the mask, a word at a time.
#[tactic(auto, using(crate::proofs::Stores::ranging))]
pub fn add_range(len: usize, words: &mut [u64], start: usize, end: usize)
    requires { IsMask len words.old × (end ≤ len) }
    ensures { words.new ≡ with_range len words.old start end }
{
    for w in start / AbtmTopologyWord::BITS..words_for(end) {
        words[w] |= bits_between(start, end, w);
    }
}
