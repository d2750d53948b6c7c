// What every crate of the port stands on: the numbered refusal, the limits, and scans of a list. Its specs/ and proofs/ hold what all
// promises are made of: the chain of checks, sets of numbers, and lists written over the front of a lent list.
#![tactic(auto)]

ghost use Rattle.std.specs.Prelude.{◌≡◌, IfOk, ℕ};
ghost use Rattle.base.specs.Lists.{below};
ghost use Rattle.base.specs.Checks.{refusal_number, refusal_expected, refusal_actual, must_be};

pub mod scan;

// The most rows, columns, nodes, mask bits, layout unknowns.
pub const SIDE_LIMIT: usize = 1048576;

// The most entries, values, words, pairs, sources.
pub const ENTRY_LIMIT: usize = 16777216;

pub const REGION_LIMIT: usize = 65536;

// Why a call was refused, a case for each number of the table in include/hybit_matrix.h, in its order. It is handed to C as its number and figures,
// and no program prints it otherwise: it needs no `Debug` and no `Display`.
#[derive(Clone, Copy, PartialEq, Eq)]
pub enum Refusal {
    OverLimit,
    RowPtrLength,
    EntryLengths,
    RowPtrStart,
    RowPtrEnd,
    RowPtrFalls,
    ColumnOutside,
    NotFinite,
    BadTopology,
    NotSquare,
    WrongLength { expected: u64, actual: u64 },
    BitPastLength,
    OutOfRange,
    NoBlock,
    EmptyBlock,
    RepeatedBlock,
    UnknownKind,
    TotalNotSides,
    NoRanks,
    OwnerOutOfRange,
    OwnersDiffer,
    SidesDiffer,
    PairWithoutEntry,
    EntryWithoutPair,
    ListTooShort,
    BadPointers,
    MalformedJob,
}

// Its number in that table.
impl From<Refusal> for u32 {
    ghost from_gives = { λ r n. n ≡ refusal_number r };

    fn from(refusal: Refusal) -> u32 {
        match refusal {
            Refusal::OverLimit => 1,
            Refusal::RowPtrLength => 2,
            Refusal::EntryLengths => 3,
            Refusal::RowPtrStart => 4,
            Refusal::RowPtrEnd => 5,
            Refusal::RowPtrFalls => 6,
            Refusal::ColumnOutside => 7,
            Refusal::NotFinite => 8,
            Refusal::BadTopology => 9,
            Refusal::NotSquare => 10,
            Refusal::WrongLength { .. } => 11,
            Refusal::BitPastLength => 12,
            Refusal::OutOfRange => 13,
            Refusal::NoBlock => 14,
            Refusal::EmptyBlock => 15,
            Refusal::RepeatedBlock => 16,
            Refusal::UnknownKind => 17,
            Refusal::TotalNotSides => 18,
            Refusal::NoRanks => 19,
            Refusal::OwnerOutOfRange => 20,
            Refusal::OwnersDiffer => 21,
            Refusal::SidesDiffer => 22,
            Refusal::PairWithoutEntry => 23,
            Refusal::EntryWithoutPair => 24,
            Refusal::ListTooShort => 25,
            Refusal::BadPointers => 26,
            Refusal::MalformedJob => 27,
        }
    }
}

impl Refusal {
    pub fn wrong_length(expected: usize, actual: usize) -> Self
        ensures { result ≡ Refusal.WrongLength expected actual }
    {
        Self::WrongLength {
            expected: expected as u64,
            actual: actual as u64,
        }
    }

    // Its number, where it stands in a record beside its two figures: by method as those, so that all three are read alike.
    pub fn number(self) -> u32
        ensures { result ≡ refusal_number self }
    {
        u32::from(self)
    }

    // Its first figure: the length that was expected, for `WrongLength`, else 0.
    pub fn expected(self) -> u64
        ensures { result ≡ refusal_expected self }
    {
        match self {
            Self::WrongLength { expected, .. } => expected,
            _ => 0,
        }
    }

    // Its second figure: the length that was met, for `WrongLength`, else 0.
    pub fn actual(self) -> u64
        ensures { result ≡ refusal_actual self }
    {
        match self {
            Self::WrongLength { actual, .. } => actual,
            _ => 0,
        }
    }
}

// A length that must be the expected one.
#[tactic(auto, using(crate::proofs::Checks::checks), unfolding(crate::specs::Checks::must_be))]
pub fn must_be(expected: usize, actual: usize) -> Result<(), Refusal>
    ensures value { result ≡ must_be expected actual }
    ensures accepted { IfOk result (λ t. actual ≡ expected) }
{
    if actual != expected {
        return Err(Refusal::wrong_length(expected, actual));
    }
    Ok(())
}

// A number of a lent list, of 32 or 64 bits, as it is compared with a bound. `text_reading::Width` and `records::Element` make numbers, and compare
// none.
pub trait Number: Copy {
    ghost value: { Self → ℕ };

    fn is_below(self, bound: usize) -> bool
        ensures { result ≡ below bound (value self) };
}

impl Number for u32 {
    ghost value = { λ x. x };

    // In 32 bits, where the bound fits them.
    fn is_below(self, bound: usize) -> bool {
        bound > u32::MAX as usize || self < bound as u32
    }
}

impl Number for u64 {
    ghost value = { λ x. x };

    fn is_below(self, bound: usize) -> bool {
        self < bound as u64
    }
}
