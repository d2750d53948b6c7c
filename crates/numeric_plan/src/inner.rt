// A region's plan, its room, lists and statistics, for callers that have checked: no part of the API.
ghost use Rattle.std.specs.Prelude.{◌≡◌, IfOk, ◌+◌, ◌<◌, ◌≤◌, T, Ok, length, replicate};
ghost use Rattle.base.specs.Lists.{join_below, over, placed};
ghost use Rattle.mask.specs.Mask.{words_needed};
ghost use Rattle.mask.specs.Views.{nodes};
ghost use Rattle.side.specs.Views.{pairs};
ghost use Rattle.pattern.specs.Pattern.{nodes_left, ptr_left, columns_left};
ghost use Rattle.sources.specs.Steps.{ends_from, Put};
ghost use Rattle.gather.specs.Plan.{plan_sources, plan_ptr};
ghost use Rattle.numeric_plan.specs.Plan.{sides_check, plan_answer, source_ptr_left, sources_left};
ghost use Rattle.numeric_plan.specs.Steps.{Tables, RowRoom, Marked, ListsFit, plan_room_for, Small, plan_by_counts};
ghost use Rattle.numeric_plan.specs.Views.{check_lists, columns, entries, lists};
ghost use Rattle.binding.specs.Views.{check_binding};
ghost use Rattle.pattern.specs.Views.{size, kept, numbers, member_list, ptr_list, column_list};

use crate::AbtmLocalNumericPlanStats;
use base::Refusal;
use binding::Counts;
use binding::inner::System;
use csr32::inner::Matrix;
use mask::LARGEST_WORDS;
use mask::inner::Mask;
use pattern::inner::{Ranked, Room, SMALL_SIDE, SMALL_WORDS};
use side::inner::Side;
use sources::RowEnd;
use sources::inner::{Pairs, Row, RowSources};

// A system whose rows bind, with the mask of its rows that have a pair inside and how many sources its plan has.
#[derive(Clone, Copy)]
pub struct Bound<'a, 'p> {
    pub system: System<'a>,
    pub paired: Mask<'p>,
    pub terms: usize,
    ghost alike: { paired.len ≡ system.local.region.len },
    ghost binds: { check_binding system ≡ Ok tt },
    ghost counted: { terms ≡ length (plan_sources (lists system)) },
    ghost marked: { Marked system.local.region.len system.local.region.words.now paired.words.now (pairs system.local.rows) },
}

// A bound system with the region's tables: the members before each of its words, and the members in rising order.
#[derive(Clone, Copy)]
struct Numbered<'a, 'p, 't> {
    bound: Bound<'a, 'p>,
    ranks: &'t [u32],
    nodes: &'t [u32],
    ghost filled: { Tables bound.system.local.region.len bound.system.local.region.words.now ranks.now nodes.now },
}

impl Bound<'_, '_> {
    // The plan on lists that reach their needed lengths, with room for the table of ranks. The lists that are written are handed in one by one, here
    // and below: each has its equation, and in a struct behind `&mut` each contract would say besides that the references stay.
    fn write_ranked(
        self,
        global_nodes: &mut [u32],
        local_ptr: &mut [u32],
        local_cols: &mut [u32],
        source_ptr: &mut [u32],
        sources: &mut [u32],
        ranks: &mut [u32],
    )
        requires fits { ListsFit (size self.system.local) (kept self.system.local) self.terms global_nodes.old local_ptr.old local_cols.old source_ptr.old sources.old }
        requires table { words_needed self.system.local.region.len ≤ length ranks.old }
        ensures members { global_nodes.new ≡ over (member_list self.entry.system.local) global_nodes.old }
        ensures pointers { local_ptr.new ≡ over (ptr_list self.entry.system.local) local_ptr.old }
        ensures columns { local_cols.new ≡ over (column_list self.entry.system.local) local_cols.old }
        ensures starts { source_ptr.new ≡ over (plan_ptr (lists self.entry.system)) source_ptr.old }
        ensures entries { sources.new ≡ over (plan_sources (lists self.entry.system)) sources.old }
    {
        let region = self.system.local.region;
        pattern::inner::fill_ranks(region, ranks);
        let members = pattern::inner::write_nodes(region, global_nodes);
        Numbered {
            bound: self,
            ranks,
            nodes: global_nodes,
        }
        .write_rows(members, local_ptr, local_cols, source_ptr, sources);
    }

    // The plan with a table of ranks of its own, an array as in `pattern::inner::Local::write`: no heap.
    pub fn write(
        self,
        global_nodes: &mut [u32],
        local_ptr: &mut [u32],
        local_cols: &mut [u32],
        source_ptr: &mut [u32],
        sources: &mut [u32],
    )
        requires { ListsFit (size self.system.local) (kept self.system.local) self.terms global_nodes.old local_ptr.old local_cols.old source_ptr.old sources.old }
        ensures members { global_nodes.new ≡ over (member_list self.entry.system.local) global_nodes.old }
        ensures pointers { local_ptr.new ≡ over (ptr_list self.entry.system.local) local_ptr.old }
        ensures columns { local_cols.new ≡ over (column_list self.entry.system.local) local_cols.old }
        ensures starts { source_ptr.new ≡ over (plan_ptr (lists self.entry.system)) source_ptr.old }
        ensures entries { sources.new ≡ over (plan_sources (lists self.entry.system)) sources.old }
    {
        if self.system.local.region.len <= SMALL_SIDE {
            let mut small: [u32; SMALL_WORDS] = [0; SMALL_WORDS];
            self.write_ranked(
                global_nodes,
                local_ptr,
                local_cols,
                source_ptr,
                sources,
                &mut small,
            );
            return;
        }
        let mut large: [u32; LARGEST_WORDS] = [0; LARGEST_WORDS];
        self.write_ranked(
            global_nodes,
            local_ptr,
            local_cols,
            source_ptr,
            sources,
            &mut large,
        );
    }
}

impl Numbered<'_, '_, '_> {
    // Row r of a member, whose pairs inside are its entries: its columns by number from `first` on, their sources from `at` on, and where each one's
    // end. Rows that have no pair inside have nothing to write. The entries inside are chosen first; where their columns rise the pairs follow from
    // them, any other row is written from its words and then in n log n. Where the row's end: places in the whole lists, as the pointers hold them.
    fn write_row(
        self,
        r: usize,
        local_cols: &mut [u32],
        first: usize,
        source_ptr: &mut [u32],
        sources: &mut [u32],
        at: usize,
    ) -> RowEnd
        requires { (r < self.bound.system.local.region.len) × T (nodes self.bound.system.local.region r) × RowRoom (columns self.bound.system r) (entries self.bound.system r) first at self.bound.terms local_cols.old source_ptr.old sources.old }
        ensures pair_value { (result.pair ≡ first + length (columns self.entry.bound.system r)) × (result.source ≡ at + length (join_below (length (columns self.entry.bound.system r)) (entries self.entry.bound.system r))) }
        ensures columns { local_cols.new ≡ placed first (numbers self.entry.bound.system.local r) local_cols.old }
        ensures starts { source_ptr.new ≡ placed (first + 1) (ends_from at (length (columns self.entry.bound.system r)) (entries self.entry.bound.system r)) source_ptr.old }
        ensures entries { Put at self.entry.bound.terms (join_below (length (columns self.entry.bound.system r)) (entries self.entry.bound.system r)) sources.old sources.new }
    {
        if !self.bound.paired.holds(r) {
            return RowEnd {
                pair: first,
                source: at,
            };
        }
        let local = self.bound.system.local;
        let matrix = self.bound.system.matrix;
        let row = Row {
            col_idx: matrix.col_idx,
            start: matrix.row_ptr[r] as usize,
            end: matrix.row_ptr[r + 1] as usize,
        };
        let ranked = Ranked {
            local,
            ranks: self.ranks,
        };
        let next = row.take_inside(local.region, sources, at, self.bound.terms);
        let taken = RowSources {
            row,
            ranked,
            sources,
            at,
            next,
        };
        if taken.rises() {
            let pair = taken.write_pairs(local_cols, first, source_ptr);
            return RowEnd { pair, source: next };
        }
        let last = ranked.write_row(r, local_cols, first);
        let pairs = Pairs {
            nodes: self.nodes,
            local_cols,
            first,
            last,
        };
        let source = pairs.write_counted(row, source_ptr, sources, at);
        RowEnd { pair: last, source }
    }

    // The rows of the first `members` nodes, which are all of them, each from where the one before it ends: at pointer k + 1 for member k, since the
    // list of pointers begins with a zero.
    fn write_rows(
        self,
        members: usize,
        local_ptr: &mut [u32],
        local_cols: &mut [u32],
        source_ptr: &mut [u32],
        sources: &mut [u32],
    )
        requires all { members ≡ size self.bound.system.local }
        requires fits { ListsFit members (kept self.bound.system.local) self.bound.terms self.nodes.now local_ptr.old local_cols.old source_ptr.old sources.old }
        ensures pointers { local_ptr.new ≡ over (ptr_list self.entry.bound.system.local) local_ptr.old }
        ensures columns { local_cols.new ≡ over (column_list self.entry.bound.system.local) local_cols.old }
        ensures starts { source_ptr.new ≡ over (plan_ptr (lists self.entry.bound.system)) source_ptr.old }
        ensures entries { sources.new ≡ over (plan_sources (lists self.entry.bound.system)) sources.old }
    {
        local_ptr[0] = 0;
        source_ptr[0] = 0;
        let mut pair: usize = 0;
        let mut source: usize = 0;
        for (k, node) in self.nodes[..members].iter().enumerate() {
            let end = self.write_row(
                *node as usize,
                local_cols,
                pair,
                source_ptr,
                sources,
                source,
            );
            pair = end.pair;
            source = end.source;
            local_ptr[k + 1] = pair as u32;
        }
    }
}

// The rows of a topology against a matrix.
#[tactic(auto, using(base::proofs::Checks::checks), unfolding(crate::specs::Plan::sides_check))]
pub fn check_sides(rows: Side, matrix: Matrix) -> Result<(), Refusal>
    ensures value { result ≡ sides_check rows.entry.nrows rows.entry.ncols matrix.entry.nrows matrix.entry.ncols }
    ensures alike { IfOk result (λ t. (rows.entry.nrows ≡ matrix.entry.nrows) × (rows.entry.ncols ≡ matrix.entry.ncols)) }
{
    if rows.nrows != matrix.nrows || rows.ncols != matrix.ncols {
        return Err(Refusal::SidesDiffer);
    }
    Ok(())
}

// How long a plan's lists are: its pattern's, and those of its sources.
#[derive(Clone, Copy)]
pub struct PlanRoom {
    pub pattern: Room,
    pub source_pointers: usize,
    pub sources: usize,
}

#[tactic(auto, using(base::proofs::Checks::checks), unfolding(crate::specs::Steps::plan_room_for))]
pub fn check_room(counts: Counts, room: PlanRoom) -> Result<(), Refusal>
    ensures { result ≡ plan_room_for counts room.pattern.nodes room.pattern.pointers room.pattern.columns room.source_pointers room.sources }
{
    pattern::inner::check_room(counts.members, counts.rows.pairs, room.pattern)?;
    if counts.rows.pairs >= room.source_pointers || counts.rows.sources > room.sources {
        return Err(Refusal::ListTooShort);
    }
    Ok(())
}

// With no pair without a source, as many sources as pairs are one each.
pub fn stats(counts: Counts) -> AbtmLocalNumericPlanStats
    requires { Small counts }
    ensures { result ≡ plan_by_counts counts }
{
    AbtmLocalNumericPlanStats {
        local_nodes: counts.members as u32,
        local_nnz: counts.rows.pairs as u32,
        source_terms: counts.rows.sources as u32,
        duplicate_source_terms: (counts.rows.sources - counts.rows.pairs) as u32,
        direct_source_map: counts.rows.sources == counts.rows.pairs,
        plan_bytes: (pattern::inner::bytes(counts.members, counts.rows.pairs)
            + 4 * (counts.rows.pairs + 1)
            + 4 * counts.rows.sources) as u32,
    }
}

// The plan of a region: whether its rows bind, the room, the lists. `paired` is scratch, all zero.
fn prepare_marked(
    system: System,
    global_nodes: &mut [u32],
    local_ptr: &mut [u32],
    local_cols: &mut [u32],
    source_ptr: &mut [u32],
    sources: &mut [u32],
    paired: &mut [u64],
) -> Result<AbtmLocalNumericPlanStats, Refusal>
    requires { (paired.old ≡ replicate (length paired.old) 0) × (words_needed system.local.region.len ≤ length paired.old) }
    ensures value { result ≡ plan_answer (check_lists system.entry global_nodes.old local_ptr.old local_cols.old source_ptr.old sources.old) system.entry.local.region.len (nodes system.entry.local.region) (lists system.entry) }
    ensures members { global_nodes.new ≡ nodes_left (check_lists system.entry global_nodes.old local_ptr.old local_cols.old source_ptr.old sources.old) system.entry.local.region.len (nodes system.entry.local.region) global_nodes.old }
    ensures pointers { local_ptr.new ≡ ptr_left (check_lists system.entry global_nodes.old local_ptr.old local_cols.old source_ptr.old sources.old) system.entry.local.region.len (nodes system.entry.local.region) (pairs system.entry.local.rows) local_ptr.old }
    ensures columns { local_cols.new ≡ columns_left (check_lists system.entry global_nodes.old local_ptr.old local_cols.old source_ptr.old sources.old) system.entry.local.region.len (nodes system.entry.local.region) (pairs system.entry.local.rows) local_cols.old }
    ensures starts { source_ptr.new ≡ source_ptr_left (check_lists system.entry global_nodes.old local_ptr.old local_cols.old source_ptr.old sources.old) (lists system.entry) source_ptr.old }
    ensures entries { sources.new ≡ sources_left (check_lists system.entry global_nodes.old local_ptr.old local_cols.old source_ptr.old sources.old) (lists system.entry) sources.old }
{
    let n = system.local.region.len;
    let need = mask::inner::words_for(n);
    let counts = system.bind_rows(&mut paired[..need])?;
    let room = PlanRoom {
        pattern: Room {
            nodes: global_nodes.len(),
            pointers: local_ptr.len(),
            columns: local_cols.len(),
        },
        source_pointers: source_ptr.len(),
        sources: sources.len(),
    };
    check_room(counts, room)?;
    let marks = Mask {
        len: n,
        words: &paired[..need],
    };
    let bound = Bound {
        system,
        paired: marks,
        terms: counts.rows.sources,
    };
    bound.write(global_nodes, local_ptr, local_cols, source_ptr, sources);
    Ok(stats(counts))
}

// The plan with scratch of its own, an array: small for a small side, as in `Bound::write`.
pub fn prepare(
    system: System,
    global_nodes: &mut [u32],
    local_ptr: &mut [u32],
    local_cols: &mut [u32],
    source_ptr: &mut [u32],
    sources: &mut [u32],
) -> Result<AbtmLocalNumericPlanStats, Refusal>
    ensures value { result ≡ plan_answer (check_lists system.entry global_nodes.old local_ptr.old local_cols.old source_ptr.old sources.old) system.entry.local.region.len (nodes system.entry.local.region) (lists system.entry) }
    ensures members { global_nodes.new ≡ nodes_left (check_lists system.entry global_nodes.old local_ptr.old local_cols.old source_ptr.old sources.old) system.entry.local.region.len (nodes system.entry.local.region) global_nodes.old }
    ensures pointers { local_ptr.new ≡ ptr_left (check_lists system.entry global_nodes.old local_ptr.old local_cols.old source_ptr.old sources.old) system.entry.local.region.len (nodes system.entry.local.region) (pairs system.entry.local.rows) local_ptr.old }
    ensures columns { local_cols.new ≡ columns_left (check_lists system.entry global_nodes.old local_ptr.old local_cols.old source_ptr.old sources.old) system.entry.local.region.len (nodes system.entry.local.region) (pairs system.entry.local.rows) local_cols.old }
    ensures starts { source_ptr.new ≡ source_ptr_left (check_lists system.entry global_nodes.old local_ptr.old local_cols.old source_ptr.old sources.old) (lists system.entry) source_ptr.old }
    ensures entries { sources.new ≡ sources_left (check_lists system.entry global_nodes.old local_ptr.old local_cols.old source_ptr.old sources.old) (lists system.entry) sources.old }
{
    if system.local.region.len <= SMALL_SIDE {
        let mut small: [u64; SMALL_WORDS] = [0; SMALL_WORDS];
        return prepare_marked(
            system,
            global_nodes,
            local_ptr,
            local_cols,
            source_ptr,
            sources,
            &mut small,
        );
    }
    let mut large: [u64; LARGEST_WORDS] = [0; LARGEST_WORDS];
    prepare_marked(
        system,
        global_nodes,
        local_ptr,
        local_cols,
        source_ptr,
        sources,
        &mut large,
    )
}
