// A word's bits, for the crates above, where a place is known to be below 64: no part of the API.
ghost use Rattle.std.specs.Prelude.{◌≡◌, ◌<◌};
ghost use Rattle.std.specs.Iterator.{YieldsFirst, item_count};
ghost use Rattle.base.specs.Sets.{count_below};
ghost use Rattle.word.specs.Bits.{bit_at, set_bits};

pub fn bit(word: u64, place: usize) -> bool
    requires { place < 64 }
    ensures { result ≡ bit_at word place }
{
    word & (1u64 << place) != 0
}

// How many bits are set below the place.
pub fn rank(word: u64, place: usize) -> u32
    requires { place < 64 }
    ensures { result ≡ count_below place (bit_at word) }
{
    (word & ((1u64 << place) - 1)).count_ones()
}

// The set bits that are left, from the lowest on.
#[derive(Drop)]
pub struct Bits {
    left: u64,
}

impl Bits {
    pub fn of(mask: u64) -> Self
        ensures { result.left ≡ mask }
    {
        Self { left: mask }
    }
}

impl Iterator for Bits {
    type Item = u32;

    ghost next_gives = { YieldsFirst (λ s. set_bits s.left) };

    ghost remaining = { item_count (λ s. set_bits s.left) };

    #[tactic(auto, using(crate::proofs::Bits::lowest, crate::proofs::Bits::no_bits))]
    fn next(&mut self) -> Option<u32> {
        if self.left == 0 {
            return None;
        }
        let bit = self.left.trailing_zeros();
        self.left &= self.left - 1;
        Some(bit)
    }
}
