// The gather of a plan, region.rs of the Rust: one value for each pair of a local pattern, from the values of the whole matrix.
#![tactic(auto)]

ghost use Rattle.std.specs.Prelude.{◌≡◌};
ghost use Rattle.gather.specs.Gather.{gather_answer, gather_left};
ghost use Rattle.gather.specs.Views.{check_plan};

use base::Refusal;
use inner::Plan;

pub mod inner;

// The part of a plan that a gather reads, as a caller lends it: where each pair's sources start, the sources, and how many values the plan was made
// for.
#[derive(Clone, Copy)]
pub struct GatherPlan<'a> {
    pub source_ptr: &'a [u32],
    pub source_indices: &'a [u32],
    pub source_value_len: usize,
}

impl GatherPlan<'_> {
    // The limits, the plan, the values, the length of the list. The length of the values is a test like the rest, which the law of a chain of checks
    // finds: what `base::must_be` refuses, a `?` would hand on by an answer of its own.
    #[tactic(auto, using(base::proofs::Checks::checks, crate::proofs::Plans::empties), unfolding(crate::specs::Gather::gather_check))]
    fn check_gather(self, values: &[f64], out: &[f64]) -> Result<(), Refusal>
        ensures { result ≡ check_plan self.entry values.now out.now }
    {
        if self.source_indices.len() > base::ENTRY_LIMIT || values.len() > base::ENTRY_LIMIT {
            return Err(Refusal::OverLimit);
        }
        if self.source_ptr.first() != Some(&0)
            || !base::scan::never_falls(self.source_ptr)
            || self.source_ptr[self.source_ptr.len() - 1] as usize != self.source_indices.len()
            || !base::scan::all_below(self.source_indices, self.source_value_len)
        {
            return Err(Refusal::BadPointers);
        }
        if values.len() != self.source_value_len {
            return Err(Refusal::wrong_length(self.source_value_len, values.len()));
        }
        if !csr32::all_finite(values) {
            return Err(Refusal::NotFinite);
        }
        if self.source_ptr.len() - 1 > out.len() {
            return Err(Refusal::ListTooShort);
        }
        Ok(())
    }

    // One value for each pair of the plan: copied where every pair has one source, otherwise summed from 0.0 in stored order. An `accept` of its own
    // is no plainer, because the accepted plan holds the values too, and what is checked takes the list that is written besides.
    pub fn gather_values(self, values: &[f64], out: &mut [f64]) -> Result<u64, Refusal>
        ensures value { result ≡ gather_answer (check_plan self.entry values.now out.old) self.entry.source_ptr.now }
        ensures out_after { out.new ≡ gather_left (check_plan self.entry values.now out.old) self.entry.source_ptr.now self.entry.source_indices.now values.now out.old }
    {
        self.check_gather(values, out)?;
        let plan = Plan {
            ptr: self.source_ptr,
            sources: self.source_indices,
            values,
        };
        plan.gather(out);
        Ok((self.source_ptr.len() - 1) as u64)
    }
}
