// The steps of a pattern, for callers that have checked: no part of the API.
ghost use Rattle.std.specs.Prelude.{◌≡◌, Ok, Err, IfOk, IfErr, map, ℕ, ◌+◌, ◌*◌, ◌<◌, ◌≤◌, length, get_or};
ghost use Rattle.base.specs.Checks.{side_limit, entry_limit};
ghost use Rattle.base.specs.Lists.{over, placed};
ghost use Rattle.base.specs.Sets.{count_below, members_below};
ghost use Rattle.word.specs.Bits.{bit_at, set_bits};
ghost use Rattle.mask.specs.Mask.{in_mask, words_needed};
ghost use Rattle.mask.specs.Views.{nodes};
ghost use Rattle.side.specs.Check.{IsSide};
ghost use Rattle.side.specs.Views.{pairs};
ghost use Rattle.pattern.specs.Pattern.{number_of, inside, bytes_of_pattern};
ghost use Rattle.pattern.specs.Steps.{kept_of_row, region_kept, room_for, ranks_of, Small, stats_by_counts};

use crate::{AbtmLocalSubmatrixPatternStats, RegionKept, RowKept};
use base::Refusal;
use mask::inner::Mask;
use mask::{DofMask, LARGEST_WORDS};
use side::inner::Side;
use word::AbtmTopologyWord;
use word::inner::{Bits, rank};

// Tables of this many words are enough up to this side.
pub const SMALL_WORDS: usize = 256;

pub const SMALL_SIDE: usize = SMALL_WORDS * AbtmTopologyWord::BITS;

// The rows of a square topology and a region of its nodes.
#[derive(Clone, Copy)]
pub struct Local<'a> {
    pub rows: Side<'a>,
    pub region: Mask<'a>,
    ghost square: { IsSide region.len region.len rows.row_word_ptr.now rows.word_indices.now rows.masks.now },
}

// A region in its side, with how many members come before each of its words.
#[derive(Clone, Copy)]
pub struct Ranked<'a, 'r> {
    pub local: Local<'a>,
    pub ranks: &'r [u32],
    ghost counted: { (w : ℕ) → w < words_needed local.region.len → get_or ranks.now w 0 ≡ count_below (64 * w) (in_mask local.region.words.now) },
    ghost long: { words_needed local.region.len ≤ length ranks.now },
}

impl<'a> Local<'a> {
    ghost use Rattle.pattern.specs.Views.{check_local, AcceptedFrom};

    // The shape of a topology whose rows these are, then the mask.
    pub fn of(rows: Side<'a>, region: DofMask<'a>) -> Result<Local<'a>, Refusal>
        ensures refused { IfErr result (λ e. check_local rows.entry region.entry ≡ Err e) }
        ensures accepted { IfOk result (λ l. (check_local rows.entry region.entry ≡ Ok tt) × (rows.entry.ncols ≡ rows.entry.nrows) × AcceptedFrom rows.entry region.entry l) }
    {
        if rows.nrows != rows.ncols {
            return Err(Refusal::NotSquare);
        }
        let region = region.accept_of(rows.nrows)?;
        Ok(Local { rows, region })
    }
}

impl Local<'_> {
    ghost use Rattle.pattern.specs.Views.{size, kept, member_list, ptr_list, column_list};

    // The words of row r: how many, their bits, and those inside the region. A row's words are a position in two lists, here and in `write_row`: the
    // form that document 01 asks for in the place of the Rust's iterator `words()` (its section on modules in port order).
    pub fn count_row(self, r: usize) -> RowKept
        requires { r < self.region.len }
        ensures { result ≡ kept_of_row self.entry.region.len (nodes self.entry.region) (pairs self.entry.rows) r }
    {
        let from = self.rows.row_word_ptr[r] as usize;
        let to = self.rows.row_word_ptr[r + 1] as usize;
        let mut candidates: usize = 0;
        let mut kept: usize = 0;
        for k in from..to {
            let mask = self.rows.masks[k];
            let inside = self.region.words[self.rows.word_indices[k] as usize];
            candidates += u64::count_ones(mask) as usize;
            kept += u64::count_ones(mask & inside) as usize;
        }
        RowKept {
            words: to - from,
            candidates,
            kept,
        }
    }

    // The members and what their rows hold.
    pub fn count(self) -> RegionKept
        ensures { result ≡ region_kept self.entry.region.len (nodes self.entry.region) (pairs self.entry.rows) }
    {
        let mut members: usize = 0;
        let mut rows = RowKept::default();
        for r in self.region.members() {
            members += 1;
            rows = rows + self.count_row(r);
        }
        RegionKept { members, rows }
    }

    // The pattern on lists that reach their needed lengths, with room for the table of ranks.
    fn write_ranked(
        self,
        global_nodes: &mut [u32],
        row_ptr: &mut [u32],
        col_idx: &mut [u32],
        ranks: &mut [u32],
    )
        requires { (size self ≤ length global_nodes.old) × (size self < length row_ptr.old) × (kept self ≤ length col_idx.old) × (words_needed self.region.len ≤ length ranks.old) }
        ensures members { global_nodes.new ≡ over (member_list self.entry) global_nodes.old }
        ensures pointers { row_ptr.new ≡ over (ptr_list self.entry) row_ptr.old }
        ensures columns { col_idx.new ≡ over (column_list self.entry) col_idx.old }
    {
        fill_ranks(self.region, ranks);
        let ranked = Ranked { local: self, ranks };
        row_ptr[0] = 0;
        let mut next: usize = 0;
        for (k, r) in self.region.members().enumerate() {
            global_nodes[k] = r as u32;
            next = ranked.write_row(r, col_idx, next);
            row_ptr[k + 1] = next as u32;
        }
    }

    // The pattern with a table of ranks of its own, an array since there is no heap: a small one for a small side, where to clear the large one would
    // cost more than the rest. A const parameter for the length is no plainer, because the function of either length would have all these clauses
    // again. The lists that are written are handed in one by one, each with its equation.
    pub fn write(self, global_nodes: &mut [u32], row_ptr: &mut [u32], col_idx: &mut [u32])
        requires { (size self ≤ length global_nodes.old) × (size self < length row_ptr.old) × (kept self ≤ length col_idx.old) }
        ensures members { global_nodes.new ≡ over (member_list self.entry) global_nodes.old }
        ensures pointers { row_ptr.new ≡ over (ptr_list self.entry) row_ptr.old }
        ensures columns { col_idx.new ≡ over (column_list self.entry) col_idx.old }
    {
        if self.region.len <= SMALL_SIDE {
            let mut small: [u32; SMALL_WORDS] = [0; SMALL_WORDS];
            self.write_ranked(global_nodes, row_ptr, col_idx, &mut small);
            return;
        }
        let mut large: [u32; LARGEST_WORDS] = [0; LARGEST_WORDS];
        self.write_ranked(global_nodes, row_ptr, col_idx, &mut large);
    }
}

impl Ranked<'_, '_> {
    ghost use Rattle.pattern.specs.Views.{numbers};

    // How many members come before node c: those before its word, and those before it in the word.
    pub fn number(self, c: u32) -> u32
        requires { c < self.local.region.len }
        ensures { result ≡ number_of (in_mask self.entry.local.region.words.now) c }
    {
        let w = c as usize / AbtmTopologyWord::BITS;
        let b = c as usize % AbtmTopologyWord::BITS;
        self.ranks[w] + rank(self.local.region.words[w], b)
    }

    // The columns of row r that are inside, each by its number: written from `at` on, since all rows share the list. Where they end.
    pub fn write_row(self, r: usize, cols: &mut [u32], at: usize) -> usize
        requires { (r < self.local.region.len) × (at + count_below self.local.region.len (inside (nodes self.local.region) (pairs self.local.rows) r) ≤ length cols.old) }
        ensures value { result ≡ at + count_below self.entry.local.region.len (inside (nodes self.entry.local.region) (pairs self.entry.local.rows) r) }
        ensures cols_after { cols.new ≡ placed at (numbers self.entry.local r) cols.old }
    {
        let rows = self.local.rows;
        let mut next = at;
        for k in rows.row_word_ptr[r] as usize..rows.row_word_ptr[r + 1] as usize {
            let w = rows.word_indices[k] as usize;
            let inside = self.local.region.words[w];
            next = write_word(self.ranks[w], inside, rows.masks[k] & inside, cols, next);
        }
        next
    }
}

// How long a pattern's lists are.
#[derive(Clone, Copy)]
pub struct Room {
    pub nodes: usize,
    pub pointers: usize,
    pub columns: usize,
}

#[tactic(auto, using(base::proofs::Checks::checks), unfolding(crate::specs::Steps::room_for))]
pub fn check_room(members: usize, kept: usize, room: Room) -> Result<(), Refusal>
    ensures { result ≡ room_for members kept room.nodes room.pointers room.columns }
{
    if members > room.nodes || members >= room.pointers || kept > room.columns {
        return Err(Refusal::ListTooShort);
    }
    Ok(())
}

// Four bytes for each member, pointer and column, of which a plan has as many.
pub fn bytes(members: usize, kept: usize) -> usize
    requires { (members ≤ side_limit) × (kept ≤ entry_limit) }
    ensures { result ≡ bytes_of_pattern members kept }
{
    4 * members + 4 * (members + 1) + 4 * kept
}

pub fn stats(n: usize, counts: RegionKept) -> AbtmLocalSubmatrixPatternStats
    requires { (n ≤ side_limit) × Small counts }
    ensures { result ≡ stats_by_counts n counts }
{
    AbtmLocalSubmatrixPatternStats {
        global_nodes: n as u32,
        local_nodes: counts.members as u32,
        local_nnz: counts.rows.kept as u32,
        topology_words_visited: counts.rows.words as u32,
        candidate_neighbor_bits: counts.rows.candidates as u32,
        kept_neighbor_bits: counts.rows.kept as u32,
        mapping_scratch_bytes: (4 * n) as u32,
        pattern_bytes: bytes(counts.members, counts.rows.kept) as u32,
    }
}

// The members in rising order. How many there are. No twin of `mask::inner::Mask::write_members`: over both widths each contract would speak of the
// values of a list in the place of the list, and each caller would have to go from one to the other.
pub fn write_nodes(region: Mask, nodes: &mut [u32]) -> usize
    requires { count_below region.len (in_mask region.words.now) ≤ length nodes.old }
    ensures value { result ≡ count_below region.entry.len (in_mask region.entry.words.now) }
    ensures nodes_after { nodes.new ≡ over (members_below region.entry.len (in_mask region.entry.words.now)) nodes.old }
{
    let mut k: usize = 0;
    for (w, word) in region.words.iter().enumerate() {
        let first = (w * AbtmTopologyWord::BITS) as u32;
        for bit in Bits::of(*word) {
            nodes[k] = first + bit;
            k += 1;
        }
    }
    k
}

// How many members come before each word of the region. A word without one, as most are in a small region, is not counted. By number: what a `zip`
// with `ranks.iter_mut()` leaves in `ranks` has no name that an answer may cite.
pub fn fill_ranks(region: Mask, ranks: &mut [u32])
    requires { words_needed region.len ≤ length ranks.old }
    ensures { ranks.new ≡ over (ranks_of region.entry.len (in_mask region.entry.words.now)) ranks.old }
{
    let mut before: u32 = 0;
    for (w, bits) in region.words.iter().enumerate() {
        ranks[w] = before;
        if *bits != 0 {
            before += u64::count_ones(*bits);
        }
    }
}

// The set bits of `bits`, each by its rank in `inside`, counted from `first`: written from `at` on, as a row is. Where they end. A loop by hand: with
// `Bits` here and `Members` above, writing a pattern took 5 to 13 % more instructions, some 3 of them for each column. A
// rank is counted here, since by `rank` it took 3 more: where the bit is seen to be the lowest that is left, the mask below it needs no shift.
fn write_word(first: u32, inside: u64, bits: u64, cols: &mut [u32], at: usize) -> usize
    requires { (at + count_below 64 (bit_at bits) ≤ length cols.old) × (first ≤ side_limit) }
    ensures value { result ≡ at + count_below 64 (bit_at bits) }
    ensures cols_after { cols.new ≡ placed at (map (λ (b : ℕ). first + count_below b (bit_at inside)) (set_bits bits)) cols.old }
{
    let mut next = at;
    let mut left = bits;
    while left != 0 {
        let below = (1u64 << u64::trailing_zeros(left)) - 1;
        cols[next] = first + u64::count_ones(inside & below);
        next += 1;
        left = left & (left - 1);
    }
    next
}
