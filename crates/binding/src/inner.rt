// Whether a region's pairs and a matrix's entries bind, row by row, and how many there are, for callers that have checked: no part of the API. A
// row whose words are its entries in order is settled and counted by reading both once. The entries of any other are collected in a mask, `seen`,
// that is empty before and after each row. Either way a row costs its words and its entries.
ghost use Rattle.std.specs.Prelude.{◌≡◌, true, false, Some, not, cond, ◌&&◌, ◌||◌, ℕ, ◌+◌, ◌-◌, ◌≤◌, ◌<◌, T, ltb, length, get_or};
ghost use Rattle.base.specs.Checks.{answer, entry_limit};
ghost use Rattle.base.specs.Lists.{is_in};
ghost use Rattle.base.specs.Sets.{any_below};
ghost use Rattle.mask.specs.Mask.{in_mask, mask_words, IsMask};
ghost use Rattle.mask.specs.Answers.{with_node};
ghost use Rattle.mask.specs.Views.{nodes};
ghost use Rattle.csr32.specs.Matrix.{IsMatrix};
ghost use Rattle.csr32.specs.Views.{entries, columns_of_row};
ghost use Rattle.side.specs.Views.{pairs};
ghost use Rattle.pattern.specs.Pattern.{inside};
ghost use Rattle.pattern.specs.Steps.{region_kept};
ghost use Rattle.binding.specs.Steps.{RunOf, row_sources, sources_inside};

use crate::{Counts, RowCounts, Run};
use base::Refusal;
use csr32::inner::Matrix;
use mask::LARGEST_WORDS;
use mask::inner::Mask;
use pattern::RegionKept;
use pattern::inner::Local;
use word::AbtmTopologyWord;

// A region of a square topology, and the matrix of the same nodes.
#[derive(Clone, Copy)]
pub struct System<'a> {
    pub local: Local<'a>,
    pub matrix: Matrix<'a>,
    ghost square: { IsMatrix local.region.len local.region.len matrix.row_ptr.now matrix.col_idx.now },
}

// The entries from `from` on that lie in the word, up to the first that does not; `inside` is the region's word. A column is a pair at its first
// entry, where its bit is not yet taken. The loop counts entries by number, since where the run ends is asked for. No branch tells a member and no
// bits are counted at the end: the members of a region follow no order, and the baseline x86-64 has no popcount. The contract is of any run of the
// word from `from` on, and not of the longest: of a shorter one the bits or the row's end would differ, and its caller would answer None.
fn take_word(col_idx: &[u32], from: usize, to: usize, word: usize, inside: u64) -> Run
    requires { (from ≤ to) × (to ≤ length col_idx.now) × (length col_idx.now ≤ entry_limit) }
    ensures { RunOf col_idx.now from to word inside result }
{
    let mut bits: u64 = 0;
    let mut pairs: usize = 0;
    let mut sources: usize = 0;
    for e in from..to {
        let c = col_idx[e] as usize;
        if c / AbtmTopologyWord::BITS != word {
            return Run {
                bits,
                end: e,
                pairs,
                sources,
            };
        }
        let b = c % AbtmTopologyWord::BITS;
        sources += usize::from(word::inner::bit(inside, b));
        pairs += usize::from(word::inner::bit(inside & !bits, b));
        bits |= 1u64 << b;
    }
    Run {
        bits,
        end: to,
        pairs,
        sources,
    }
}

// How many of row r's entries have their column inside the region.
fn count_inside(region: Mask, matrix: Matrix, r: usize) -> usize
    requires { IsMatrix region.len region.len matrix.row_ptr.now matrix.col_idx.now × (r < region.len) }
    ensures { result ≡ row_sources (nodes region.entry) matrix.entry.row_ptr.now matrix.entry.col_idx.now r }
{
    matrix
        .row_columns(r)
        .iter()
        .filter(|column| region.holds(**column as usize))
        .count()
}

// How many entries of the members' rows have their column inside the region. By `map` and `sum` it was tried: left were what the closure asks of
// each member and that the sum fits, since no law says which list the members' iterator yields.
#[tactic(auto, using(crate::proofs::Sources::rows))]
pub fn count_sources(region: Mask, matrix: Matrix) -> usize
    requires { IsMatrix region.len region.len matrix.row_ptr.now matrix.col_idx.now }
    ensures { result ≡ sources_inside region.entry.len (nodes region.entry) matrix.entry.row_ptr.now matrix.entry.col_idx.now }
{
    let mut sources: usize = 0;
    for r in region.members() {
        sources += count_inside(region, matrix, r);
    }
    sources
}

impl System<'_> {
    ghost use Rattle.binding.specs.Views.{check_binding, row_check, held, row_held, FollowedRow, paired_row};

    // What row r holds inside the region where its words are its entries, both read once: so it is where the row rises and the topology is the
    // matrix's own. None says nothing, here and in all that follow rows: it sends the caller to the masks, which check and count any row, and so no
    // answer hangs on which rows are followed. A row's words are a position in two lists here and below, the form that document 01 asks for in the
    // place of the Rust's iterator `words()`. A row is its number: `r < self.local.region.len` is asked nine times, but in a struct of a system and a
    // row the nine functions would reach each list through one field more, and the loops over the members would make the struct for each row.
    fn follow_row(self, r: usize) -> Option<RowCounts>
        requires { r < self.local.region.len }
        ensures { FollowedRow self.entry r result }
    {
        let from = self.local.rows.row_word_ptr[r] as usize;
        let to = self.local.rows.row_word_ptr[r + 1] as usize;
        let end = self.matrix.row_ptr[r + 1] as usize;
        let mut pairs: usize = 0;
        let mut sources: usize = 0;
        let mut e = self.matrix.row_ptr[r] as usize;
        for k in from..to {
            let w = self.local.rows.word_indices[k] as usize;
            let run = take_word(self.matrix.col_idx, e, end, w, self.local.region.words[w]);
            if run.bits != self.local.rows.masks[k] {
                return None;
            }
            pairs += run.pairs;
            sources += run.sources;
            e = run.end;
        }
        if e != end {
            return None;
        }
        Some(RowCounts { pairs, sources })
    }

    // As `follow_row` where row r has as many words as entries: each word is one entry then, or there is no answer. What differs is collected and
    // looked at once, in the end, so that no entry waits for the one before it. By number: a `zip` of the three slices is no plainer, because its
    // elements are pairs of pairs.
    fn follow_single(self, r: usize) -> Option<RowCounts>
        requires { (r < self.local.region.len) × (get_or self.local.rows.row_word_ptr.now (r + 1) 0 - get_or self.local.rows.row_word_ptr.now r 0 ≡ get_or self.matrix.row_ptr.now (r + 1) 0 - get_or self.matrix.row_ptr.now r 0) }
        ensures { FollowedRow self.entry r result }
    {
        let from = self.local.rows.row_word_ptr[r] as usize;
        let first = self.matrix.row_ptr[r] as usize;
        let end = self.matrix.row_ptr[r + 1] as usize;
        let mut other: u64 = 0;
        let mut sources: usize = 0;
        for i in 0..end - first {
            let c = self.matrix.col_idx[first + i] as usize;
            let w = c / AbtmTopologyWord::BITS;
            let b = c % AbtmTopologyWord::BITS;
            let index = self.local.rows.word_indices[from + i] as usize;
            other |= (index ^ w) as u64 | (self.local.rows.masks[from + i] ^ (1u64 << b));
            sources += usize::from(self.local.region.holds(c));
        }
        if other != 0 {
            return None;
        }
        Some(RowCounts {
            pairs: sources,
            sources,
        })
    }

    // Row r in either way. Lent the system: a call would hand its 17 words on for each row anew.
    fn follow(&self, r: usize) -> Option<RowCounts>
        requires { r < self.now.local.region.len }
        ensures { FollowedRow self.now r result }
    {
        let words = self.local.rows.row_word_ptr[r + 1] - self.local.rows.row_word_ptr[r];
        let entries = self.matrix.row_ptr[r + 1] - self.matrix.row_ptr[r];
        if words == entries {
            return self.follow_single(r);
        }
        self.follow_row(r)
    }

    // The columns of row r's entries join the mask, which changes and so stays a list with its fact, here and below.
    #[tactic(auto, using(crate::proofs::Seen::joining))]
    fn add_entries(self, r: usize, seen: &mut [u64])
        requires { (r < self.local.region.len) × IsMask self.local.region.len seen.old }
        ensures { seen.new ≡ mask_words self.entry.local.region.len (λ c. in_mask seen.old c || is_in c (columns_of_row self.entry.matrix r)) }
    {
        for column in self.matrix.row_columns(r) {
            mask::inner::put(self.local.region.len, seen, *column as usize, true);
        }
    }

    // The columns of row r leave the mask. Whether one that is inside the region was not in it.
    fn take_row(self, r: usize, seen: &mut [u64]) -> bool
        requires { (r < self.local.region.len) × IsMask self.local.region.len seen.old }
        ensures value { result ≡ any_below self.entry.local.region.len (λ c. nodes self.entry.local.region c && pairs self.entry.local.rows r c && not (in_mask seen.old c)) }
        ensures seen_after { seen.new ≡ mask_words self.entry.local.region.len (λ c. in_mask seen.old c && not (pairs self.entry.local.rows r c)) }
    {
        let from = self.local.rows.row_word_ptr[r] as usize;
        let to = self.local.rows.row_word_ptr[r + 1] as usize;
        let mut missing: u64 = 0;
        for k in from..to {
            let w = self.local.rows.word_indices[k] as usize;
            let mask = self.local.rows.masks[k];
            let left = seen[w];
            missing |= mask & self.local.region.words[w] & !left;
            seen[w] = left & !mask;
        }
        missing != 0
    }

    // The mask is emptied; it holds columns of row r's entries alone. Whether one was inside the region.
    fn drain(self, r: usize, seen: &mut [u64]) -> bool
        requires { (r < self.local.region.len) × IsMask self.local.region.len seen.old × ((c : ℕ) → c < self.local.region.len → T (in_mask seen.old c) → T (is_in c (columns_of_row self.matrix r))) }
        ensures value { result ≡ any_below self.entry.local.region.len (λ c. nodes self.entry.local.region c && in_mask seen.old c) }
        ensures seen_after { seen.new ≡ mask_words self.entry.local.region.len (λ i. false) }
    {
        let mut extra: u64 = 0;
        for column in self.matrix.row_columns(r) {
            let w = *column as usize / AbtmTopologyWord::BITS;
            extra |= seen[w] & self.local.region.words[w];
            seen[w] = 0;
        }
        extra != 0
    }

    // A pair without an entry, then an entry without a pair, of row r: what its words do not take from its entries is missing from the topology.
    fn check_row(self, r: usize, seen: &mut [u64]) -> Result<(), Refusal>
        requires { (r < self.local.region.len) × (seen.old ≡ mask_words self.local.region.len (λ i. false)) }
        ensures value { result ≡ row_check self.entry r }
        ensures seen_after { seen.new ≡ mask_words self.entry.local.region.len (λ i. false) }
    {
        self.add_entries(r, seen);
        let missing = self.take_row(r, seen);
        let extra = self.drain(r, seen);
        if missing {
            return Err(Refusal::PairWithoutEntry);
        }
        if extra {
            return Err(Refusal::EntryWithoutPair);
        }
        Ok(())
    }

    // What the members' rows hold where nothing is left to check, given what the topology holds inside the region.
    pub fn counts(self, kept: RegionKept) -> Counts
        requires { kept ≡ region_kept self.local.region.len (nodes self.local.region) (pairs self.local.rows) }
        ensures { result ≡ held self.entry }
    {
        Counts {
            members: kept.members,
            rows: RowCounts {
                pairs: kept.rows.kept,
                sources: count_sources(self.local.region, self.matrix),
            },
        }
    }

    // Row r in one pass where its words are its entries; any other is checked, then counted.
    #[tactic(auto, using(crate::proofs::Sources::rows))]
    fn settle_row(self, r: usize, seen: &mut [u64]) -> Result<RowCounts, Refusal>
        requires { (r < self.local.region.len) × (seen.old ≡ mask_words self.local.region.len (λ i. false)) }
        ensures value { result ≡ answer (row_check self.entry r) (row_held self.entry r) }
        ensures seen_after { seen.new ≡ mask_words self.entry.local.region.len (λ i. false) }
    {
        if let Some(counts) = self.follow(r) {
            return Ok(counts);
        }
        self.check_row(r, seen)?;
        let row = self.local.count_row(r);
        Ok(RowCounts {
            pairs: row.kept,
            sources: count_inside(self.local.region, self.matrix, r),
        })
    }

    // The members' rows in order as long as each one's words are its entries, what they hold, and which of them have a pair. None says nothing.
    fn follow_members(self, paired: &mut [u64]) -> Option<Counts>
        requires { paired.old ≡ mask_words self.local.region.len (λ i. false) }
        ensures counts_value { (counts : Counts) → result ≡ Some counts → (check_binding self.entry ≡ Ok tt) × (counts ≡ held self.entry) }
        ensures marks { (counts : Counts) → result ≡ Some counts → paired.new ≡ mask_words self.entry.local.region.len (paired_row self.entry) }
    {
        let mut members: usize = 0;
        let mut rows = RowCounts::default();
        for r in self.local.region.members() {
            let row = self.follow(r)?;
            members += 1;
            rows = rows + row;
            mark_row(self.local.region.len, r, row.pairs, paired);
        }
        Some(Counts { members, rows })
    }

    // The members' rows in order, what they hold, and which of them have a pair. One walk for this and `follow_members`, with a closure for the row,
    // is no plainer, because the closure's answers and what it leaves in `seen` would have to be said of each row, and one answers a Result, one an
    // Option.
    fn settle_members(self, paired: &mut [u64], seen: &mut [u64]) -> Result<Counts, Refusal>
        requires { (paired.old ≡ mask_words self.local.region.len (λ i. false)) × (seen.old ≡ mask_words self.local.region.len (λ i. false)) }
        ensures value { result ≡ answer (check_binding self.entry) (held self.entry) }
        ensures marks { check_binding self.entry ≡ Ok tt → paired.new ≡ mask_words self.entry.local.region.len (paired_row self.entry) }
    {
        let mut members: usize = 0;
        let mut rows = RowCounts::default();
        for r in self.local.region.members() {
            let row = self.settle_row(r, seen)?;
            members += 1;
            rows = rows + row;
            mark_row(self.local.region.len, r, row.pairs, paired);
        }
        Ok(Counts { members, rows })
    }

    // `settle_members` with an empty mask of its own for the rows that need it: as many words as the largest matrix asks for. An
    // array: no heap.
    fn settle(self, paired: &mut [u64]) -> Result<Counts, Refusal>
        requires { paired.old ≡ mask_words self.local.region.len (λ i. false) }
        ensures value { result ≡ answer (check_binding self.entry) (held self.entry) }
        ensures marks { check_binding self.entry ≡ Ok tt → paired.new ≡ mask_words self.entry.local.region.len (paired_row self.entry) }
    {
        let mut seen: [u64; LARGEST_WORDS] = [0; LARGEST_WORDS];
        let need = mask::inner::words_for(self.local.region.len);
        self.settle_members(paired, &mut seen[..need])
    }

    // Both faults by local row, what the rows hold, and, where all of them bind, the mask of those that have a pair: the others need no second look.
    // The mask is empty at first. Where each row's words are its entries nothing else is needed; otherwise all is settled anew.
    #[tactic(auto, using(crate::proofs::Sources::rows))]
    pub fn bind_rows(self, paired: &mut [u64]) -> Result<Counts, Refusal>
        requires { paired.old ≡ mask_words self.local.region.len (λ i. false) }
        ensures value { result ≡ answer (check_binding self.entry) (held self.entry) }
        ensures marks { check_binding self.entry ≡ Ok tt → paired.new ≡ mask_words self.entry.local.region.len (paired_row self.entry) }
    {
        if let Some(counts) = self.follow_members(paired) {
            return Ok(counts);
        }
        mask::inner::clear(self.local.region.len, paired);
        self.settle(paired)
    }

    // `bind_rows` where nobody asks for the mask, an array as in `settle`.
    pub fn bind(self) -> Result<Counts, Refusal>
        ensures { result ≡ answer (check_binding self.entry) (held self.entry) }
    {
        let mut paired: [u64; LARGEST_WORDS] = [0; LARGEST_WORDS];
        let need = mask::inner::words_for(self.local.region.len);
        self.bind_rows(&mut paired[..need])
    }
}

// Row r is marked where it has a pair. A bit or none is stored each time: which it is follows no order, and a store that hangs on it costs more.
fn mark_row(n: usize, r: usize, pairs: usize, paired: &mut [u64])
    requires { IsMask n paired.old × (r < n) }
    ensures { paired.new ≡ cond (ltb 0 pairs) (with_node n paired.old r true) paired.old }
{
    let bit: u64 = if pairs > 0 {
        1u64 << (r % AbtmTopologyWord::BITS)
    } else {
        0
    };
    paired[r / AbtmTopologyWord::BITS] |= bit;
}
