// Offsets written and checked, a node's block looked up, a field's mask filled, for callers that have checked: no part of the API.
ghost use Rattle.std.specs.Prelude.{◌≡◌, Err, IfOk, IfErr, ℕ, ◌<◌, ◌≤◌, length, get_or};
ghost use Rattle.base.specs.Checks.{side_limit};
ghost use Rattle.base.specs.Lists.{same_list, over};
ghost use Rattle.mask.specs.Mask.{words_needed, mask_words};
ghost use Rattle.dof_layout.specs.Layout.{start_of, total_of, offsets_of, block_of};
ghost use Rattle.dof_layout.specs.Answers.{has_field};
ghost use Rattle.dof_layout.specs.Runs.{Run};

use crate::FieldAwareDofLayout;
use base::Refusal;

// Where the blocks of a layout that was accepted begin and end.
#[derive(Clone, Copy)]
pub struct Layout<'a> {
    pub components: &'a [u32],
    pub offsets: &'a [u64],
    ghost totals: { offsets.now ≡ offsets_of components.now },
    ghost few: { total_of components.now ≤ side_limit },
    ghost filled: { (b : ℕ) → b < length components.now → 0 < get_or components.now b 0 },
}

// The running totals at the front of `out`, which has room for them; answers the total. Of two lists one goes by index: what a `zip` leaves in a list
// that is written has no name that an answer may cite.
#[tactic(auto, using(crate::proofs::Layouts::totals))]
pub fn write_offsets(components: &[u32], out: &mut [u64]) -> u64
    requires { (total_of components.now < 18446744073709551616) × (length components.now < length out.old) }
    ensures value { result ≡ total_of components.now }
    ensures out_after { out.new ≡ over (offsets_of components.now) out.old }
{
    let mut total: u64 = 0;
    for (b, size) in components.iter().enumerate() {
        out[b] = total;
        total += *size as u64;
    }
    out[components.len()] = total;
    total
}

// The offsets are the running totals, their length included. Both lists have one length in the loop, so that a turn looks for one end. It is no part
// of its callers: among what a field's mask needs, the running total would be kept in memory.
#[inline(never)]
#[tactic(auto, using(crate::proofs::Layouts::totals))]
pub fn are_offsets(components: &[u32], offsets: &[u64]) -> bool
    requires { total_of components.now ≤ side_limit }
    ensures { result ≡ same_list offsets.now (offsets_of components.now) }
{
    if offsets.len() != components.len() + 1 {
        return false;
    }
    let mut total: u64 = 0;
    for (start, size) in offsets[..components.len()].iter().zip(components) {
        if *start != total {
            return false;
        }
        total += *size as u64;
    }
    offsets[components.len()] == total
}

// The block of node `dof`, which lies between the offsets at `low` and at `high`: the half of them that brackets it, by a call of its own: one of
// the forms that are asked for (docs/DECISIONS.md, at its end).
pub fn locate(components: &[u32], offsets: &[u64], low: usize, high: usize, dof: u64) -> usize
    requires { (offsets.now ≡ offsets_of components.now) × (low < high) × (high ≤ length components.now) × (start_of components.now low ≤ dof) × (dof < start_of components.now high) }
    ensures { result ≡ block_of components.now dof }
{
    if high - low == 1 {
        return low;
    }
    let middle = low + (high - low) / 2;
    if offsets[middle] <= dof {
        locate(components, offsets, middle, high, dof)
    } else {
        locate(components, offsets, low, middle, dof)
    }
}

// The first block from a on that does not have the field, or the number of blocks, where the last run ends: `position` would count from a, and answer
// none there. `Run` says it by what stands before and at the end, which is what its caller uses.
fn run_end(fields: &[u32], field: u32, a: usize) -> usize
    requires { a ≤ length fields.now }
    ensures { Run fields.now field a result }
{
    for b in a..fields.len() {
        if fields[b] != field {
            return b;
        }
    }
    fields.len()
}

// The mask of the nodes whose block has the field, on a list of exactly its words. Neighbouring blocks of the field are one range, so that whole
// words are written, as the project's rule for inner loops has it: block by block, a word would be written for each block in it. The loop jumps
// past each range.
pub fn fill_field(
    fields: &[u32],
    components: &[u32],
    offsets: &[u64],
    field: u32,
    words: &mut [u64],
)
    requires { (offsets.now ≡ offsets_of components.now) × (length fields.now ≡ length components.now) × (total_of components.now ≤ side_limit) × (length words.old ≡ words_needed (total_of components.now)) }
    ensures { words.new ≡ mask_words (total_of components.now) (has_field fields.now components.now field) }
{
    let total = offsets[components.len()] as usize;
    mask::inner::clear(total, words);
    let mut a: usize = 0;
    while a < fields.len() {
        let b = run_end(fields, field, a);
        let start = offsets[a] as usize;
        let end = offsets[b] as usize;
        mask::inner::add_range(total, words, start, end);
        a = b + 1;
    }
}

impl<'a> FieldAwareDofLayout<'a> {
    ghost use Rattle.dof_layout.specs.Views.{check_layout, check_square, total, SoundLayout, AcceptedFrom};

    #[tactic(auto, using(crate::proofs::Layouts::views))]
    pub fn accept(self) -> Result<Layout<'a>, Refusal>
        ensures refused { IfErr result (λ e. check_layout self.entry ≡ Err e) }
        ensures accepted { IfOk result (λ l. (check_layout self.entry ≡ Ok tt) × SoundLayout self.entry × AcceptedFrom self.entry l) }
    {
        self.check()?;
        Ok(Layout {
            components: self.blocks.components,
            offsets: self.offsets,
        })
    }

    // A layout that must have as many nodes as a matrix has rows and columns.
    pub fn accept_square(self, nrows: usize, ncols: usize) -> Result<Layout<'a>, Refusal>
        ensures refused { IfErr result (λ e. check_square self.entry nrows ncols ≡ Err e) }
        ensures accepted { IfOk result (λ l. (check_square self.entry nrows ncols ≡ Ok tt) × (nrows ≡ total self.entry) × (ncols ≡ total self.entry) × AcceptedFrom self.entry l) }
    {
        let layout = self.accept()?;
        let total = layout.total();
        if nrows != total || ncols != total {
            return Err(Refusal::TotalNotSides);
        }
        Ok(layout)
    }
}

impl Layout<'_> {
    // Where block b starts, and the one before it ends.
    #[inline]
    #[tactic(auto, using(crate::proofs::Layouts::starts))]
    pub fn start(self, b: usize) -> usize
        requires { b ≤ length self.components.now }
        ensures { result ≡ start_of self.entry.components.now b }
    {
        self.offsets[b] as usize
    }

    // How many nodes it has: the last offset.
    pub fn total(self) -> usize
        ensures { result ≡ total_of self.entry.components.now }
    {
        self.start(self.components.len())
    }

    // The block of node `dof`, which lies between the offsets at `low` and at `high`.
    pub fn locate(self, low: usize, high: usize, dof: u64) -> usize
        requires { (low < high) × (high ≤ length self.components.now) × (start_of self.components.now low ≤ dof) × (dof < start_of self.components.now high) }
        ensures { result ≡ block_of self.entry.components.now dof }
    {
        locate(self.components, self.offsets, low, high, dof)
    }

    // The mask of the nodes whose block has the field, on a list of exactly its words.
    pub fn fill_field(self, fields: &[u32], field: u32, words: &mut [u64])
        requires { (length fields.now ≡ length self.components.now) × (length words.old ≡ words_needed (total_of self.components.now)) }
        ensures { words.new ≡ mask_words (total_of self.entry.components.now) (has_field fields.now self.entry.components.now field) }
    {
        fill_field(fields, self.components, self.offsets, field, words);
    }
}
