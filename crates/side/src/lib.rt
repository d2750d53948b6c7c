// One side of a topology: for each row the 64-bit words that hold at least one of its columns. Its definition as the side of a set of pairs,
// its faults told apart, and the work on its rows. The calls of the API stand in the crates above.
#![tactic(auto)]

ghost use Rattle.std.specs.Prelude.{◌≡◌, IfOk};
ghost use Rattle.side.specs.Check.{fault_refusal};

use base::Refusal;

pub mod inner;

// A side as a caller lends it.
#[derive(Clone, Copy)]
pub struct AbtmTopology<'a> {
    pub nrows: usize,
    pub ncols: usize,
    pub row_word_ptr: &'a [u32],
    pub word_indices: &'a [u32],
    pub masks: &'a [u64],
    pub structural_nnz: usize,
}

// Where a bad word stands: its row, and its position in the list of words.
#[derive(Clone, Copy)]
pub struct BadWord {
    pub row: u64,
    pub position: u64,
}

// How many words and pairs a side has.
#[derive(Clone, Copy)]
pub struct SideCounts {
    pub words: u64,
    pub pairs: u64,
}

// The first fault of a side or of two: lengths, pointers or pair count of a side; a word; sides that disagree.
#[derive(Clone, Copy)]
pub enum Fault {
    Lists,
    Word(BadWord),
    Disagree,
}

impl From<Fault> for Refusal {
    ghost from_gives = { λ f r. r ≡ fault_refusal f };

    fn from(fault: Fault) -> Refusal {
        match fault {
            Fault::Lists | Fault::Word(_) | Fault::Disagree => Refusal::BadTopology,
        }
    }
}

impl AbtmTopology<'_> {
    ghost use Rattle.side.specs.Views.{check_side, SoundSide};

    pub fn validate(self) -> Result<(), Refusal>
        ensures value { result ≡ check_side self.entry }
        ensures accepted { IfOk result (λ t. SoundSide self.entry) }
    {
        self.check_limits()?;
        self.fault()?;
        Ok(())
    }
}
