// A word of a topology row: 64 columns, bit i of the mask for column word_index * 64 + i. The laws of bits stand in proofs/, once for all
// crates above.
#![tactic(auto, using(crate::proofs::Answers::methods))]

ghost use Rattle.std.specs.Prelude.{◌≡◌, ◌*◌};
ghost use Rattle.base.specs.Sets.{count_below};
ghost use Rattle.word.specs.Bits.{bit_at, word_from};
ghost use Rattle.word.specs.Answers.{contains_answer, rank_answer, select_answer, on};

use base::Refusal;

pub mod inner;

// An operation on two words, bit by bit. Which of the four it is, a caller says as data: the contract of a closure in its place would have to say
// that it acts bit by bit.
#[derive(Clone, Copy)]
pub enum Operation {
    Union,
    Intersection,
    AndNot,
    Xor,
}

impl Operation {
    pub fn apply(self, a: u64, b: u64) -> u64
        ensures { result ≡ word_from (λ i. on self (bit_at a i) (bit_at b i)) 64 0 }
    {
        match self {
            Self::Union => a | b,
            Self::Intersection => a & b,
            Self::AndNot => a & !b,
            Self::Xor => a ^ b,
        }
    }
}

#[derive(Clone, Copy)]
pub struct AbtmTopologyWord {
    pub word_index: u32,
    pub mask: u64,
}

impl AbtmTopologyWord {
    pub const BITS: usize = 64;

    pub fn new(word_index: u32, mask: u64) -> Self
        ensures { result ≡ record { word_index = word_index; mask = mask } }
    {
        Self { word_index, mask }
    }

    pub fn word_index(self) -> u32
        ensures { result ≡ self.word_index }
    {
        self.word_index
    }

    pub fn base_col(self) -> usize
        ensures { result ≡ self.word_index * 64 }
    {
        self.word_index as usize * Self::BITS
    }

    pub fn mask(self) -> u64
        ensures { result ≡ self.mask }
    {
        self.mask
    }

    pub fn popcount(self) -> usize
        ensures { result ≡ count_below 64 (bit_at self.mask) }
    {
        self.mask.count_ones() as usize
    }

    pub fn contains_offset(self, offset: usize) -> bool
        ensures { result ≡ contains_answer self.mask offset }
    {
        offset < Self::BITS && inner::bit(self.mask, offset)
    }

    pub fn rank(self, offset: usize) -> Result<usize, Refusal>
        ensures { result ≡ rank_answer self.mask offset }
    {
        if offset > Self::BITS {
            return Err(Refusal::OutOfRange);
        }
        if offset == Self::BITS {
            return Ok(self.popcount());
        }
        Ok(inner::rank(self.mask, offset) as usize)
    }

    pub fn select(self, ordinal: usize) -> Option<usize>
        ensures { result ≡ select_answer self.mask ordinal }
    {
        if ordinal >= self.popcount() {
            return None;
        }
        // The bits before it are cleared: `inner::Bits` would look for the place of each, in twice the time.
        let mut bits = self.mask;
        for _ in 0..ordinal {
            bits &= bits - 1;
        }
        Some(bits.trailing_zeros() as usize)
    }
}
