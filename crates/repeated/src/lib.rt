// For the benchmark only: a growth, a closing, a pattern, a plan or a gather made many times after one check of its inputs, so that its own time
// can be told from the time of the checks. It leaves and answers what one call does. repeated_c exports them; no part of a station's library.
// Its exported functions take each list for itself and answer a flat record: both are C's. Lists that are written are no struct: each contract would
// say besides that the struct's references stay. So a loop over one call is a function for each of them: a closure would hold the lists that its call
// writes, and what each is left with would be said of the closure. Plain and field growths are no two kinds of one trait, as `Hop` and `Grower` have
// them: its ghost members would be the network, the checks and the counts, its methods the call on lent lists and the one on accepted ones with
// their clauses, and that is all that the functions hold. What a call has accepted is made the accepted struct by a function or a literal that checks
// nothing: `accept` could refuse behind a call that has written its lists, so that each place would have to show that it does not, as it shows
// here what the struct asks. A refusal is made the record by a `match`: with `?` each private function would answer a `Result<u64, Refusal>`, and
// specs/ would say each count twice, in that and in the record. Lists of arguments make the functions and the clauses long.
#![tactic(auto)]

ghost use Rattle.std.specs.Prelude.{◌≡◌, false, ℕ, ◌^◌, ◌<◌, length, get_or};
ghost use Rattle.mask.specs.Mask.{words_needed, mask_words};
ghost use Rattle.dof_layout.specs.Layout.{total_of};
ghost use Rattle.dof_layout.specs.Views.{SoundLayout, total};
ghost use Rattle.side.specs.Check.{IsSide};
ghost use Rattle.side.specs.Views.{pairs};
ghost use Rattle.graph.specs.Network.{plain_network, region_words, frontier_words};
ghost use Rattle.growth.specs.Visits.{grown_by};
ghost use Rattle.growth.specs.Lent.{region_left, frontier_left, scratch_left};
ghost use Rattle.region.specs.Growth.{grow_answer};
ghost use Rattle.region.specs.Views.{check_grow, plain};
ghost use Rattle.field_region.specs.Growth.{field_grow_answer, blocks_grown_by};
ghost use Rattle.field_region.specs.Closure.{close_check, close_answer, closed_words, close_words};
ghost use Rattle.field_region.specs.Views.{fields, blocked, check_closing, check_field_grow};
ghost use Rattle.repeated.specs.Repeated.{hops_answer, field_hops_answer, count_answer, value_answer, refused_answer};
ghost use Rattle.repeated.specs.Lent.{grown_of, field_grown_of};
ghost use Rattle.repeated.specs.Views.{Words, SideOf, Square, GraphOf};

use base::Refusal;
use dof_layout::FieldAwareDofLayout;
use dof_layout::inner::Layout;
use dual_topology::AbtmDualTopology;
use dual_topology::inner::Topology;
use field_region::BlocksGrown;
use field_region::inner::FieldGraph;
use growth::Grown;
use growth::inner::Graph;
use mask::DofMask;
use mask::inner::Mask;
use side::AbtmTopology;
use side::inner::Side;

pub mod local;
mod views;

// The value: the hops completed, or the count of nodes, of pairs or of sources. hybit_matrix has a record like it: to have one
// for both, a crate below both would hold it, its `From`s and what `views` has, for the benchmark's library alone.
#[repr(C)]
#[derive(Clone, Copy, Default)]
pub struct Answer {
    pub number: u32,
    pub present: bool,
    pub expected: u64,
    pub actual: u64,
    pub value: u64,
}

impl From<Refusal> for Answer {
    ghost from_gives = { λ r a. a ≡ refused_answer r };

    fn from(r: Refusal) -> Self {
        Self {
            number: r.number(),
            expected: r.expected(),
            actual: r.actual(),
            ..Self::default()
        }
    }
}

impl From<u64> for Answer {
    ghost from_gives = { λ n a. a ≡ value_answer n };

    fn from(value: u64) -> Self {
        Self {
            present: true,
            value,
            ..Self::default()
        }
    }
}

// A side of `n` nodes, of a topology that a call has accepted.
pub(crate) fn side_of<'a>(n: usize, side: AbtmTopology<'a>) -> Side<'a>
    requires { IsSide n n side.row_word_ptr.now side.word_indices.now side.masks.now }
    ensures { SideOf n side.entry result }
{
    Side {
        nrows: n,
        ncols: n,
        row_word_ptr: side.row_word_ptr,
        word_indices: side.word_indices,
        masks: side.masks,
    }
}

// The graph of a topology that a call has accepted.
fn graph_of<'a>(topology: AbtmDualTopology<'a>) -> Graph<'a>
    requires { Square topology }
    ensures { GraphOf topology.entry result }
{
    let n = topology.rows.nrows;
    let rows = side_of(n, topology.rows);
    let columns = side_of(n, topology.columns);
    let accepted = Topology { rows, columns };
    Graph {
        n,
        topology: accepted,
    }
}

// The same under a layout that a call has accepted.
fn field_graph_of<'a>(
    topology: AbtmDualTopology<'a>,
    layout: FieldAwareDofLayout<'a>,
) -> FieldGraph<'a>
    requires { Square topology × SoundLayout layout × (topology.rows.nrows ≡ total layout) }
    ensures { GraphOf topology.entry result.graph × (result.layout.components ≡ layout.entry.blocks.components) × (result.layout.offsets ≡ layout.entry.offsets) }
{
    let graph = graph_of(topology);
    let blocks = Layout {
        components: layout.blocks.components,
        offsets: layout.offsets,
    };
    FieldGraph {
        graph,
        layout: blocks,
    }
}

// One growth, and `times` more.
fn repeat(
    graph: Graph,
    seeds: Mask,
    hops: u64,
    times: u64,
    region: &mut [u64],
    frontier: &mut [u64],
    scratch: &mut [u64],
) -> Grown
    requires { (seeds.len ≡ graph.n) × (length region.old ≡ words_needed graph.n) × (length frontier.old ≡ words_needed graph.n) × (length scratch.old ≡ words_needed graph.n) }
    ensures value { result ≡ grown_by (plain_network graph.entry.n (pairs graph.entry.topology.rows)) seeds.entry.words.now hops }
    ensures region_after { region.new ≡ region_words (plain_network graph.entry.n (pairs graph.entry.topology.rows)) seeds.entry.words.now hops }
    ensures frontier_after { frontier.new ≡ frontier_words (plain_network graph.entry.n (pairs graph.entry.topology.rows)) seeds.entry.words.now hops }
    ensures scratch_after { scratch.new ≡ mask_words graph.entry.n (λ i. false) }
{
    let mut grown = graph.grow(seeds, hops, region, frontier, scratch);
    for _ in 0..times {
        grown = graph.grow(seeds, hops, region, frontier, scratch);
    }
    grown
}

// A growth as lent, and `times` + 1 more with what its checks gave.
#[tactic(auto, unfolding(crate::specs::Repeated::hops_answer))]
fn repeated_growth<'a>(
    topology: AbtmDualTopology<'a>,
    mask: DofMask<'a>,
    hops: u64,
    times: u64,
    region: &mut [u64],
    frontier: &mut [u64],
    scratch: &mut [u64],
) -> Answer
    requires { Words topology mask }
    ensures value { result ≡ hops_answer (grow_answer (check_grow topology.entry mask.entry region.old frontier.old scratch.old) (plain topology.entry) mask.entry.words.now hops) }
    ensures inside { region.new ≡ region_left (check_grow topology.entry mask.entry region.old frontier.old scratch.old) (plain topology.entry) mask.entry.words.now hops region.old }
    ensures edge { frontier.new ≡ frontier_left (check_grow topology.entry mask.entry region.old frontier.old scratch.old) (plain topology.entry) mask.entry.words.now hops frontier.old }
    ensures spent { scratch.new ≡ scratch_left (check_grow topology.entry mask.entry region.old frontier.old scratch.old) topology.entry.rows.nrows scratch.old }
{
    match region::grow_undirected_region(topology, mask, hops, region, frontier, scratch) {
        Err(r) => r.into(),
        Ok(_) => {
            let n = topology.rows.nrows;
            let need = mask::inner::words_for(n);
            let graph = graph_of(topology);
            let seeds = Mask {
                len: n,
                words: mask.words,
            };
            let grown = repeat(
                graph,
                seeds,
                hops,
                times,
                &mut region[..need],
                &mut frontier[..need],
                &mut scratch[..need],
            );
            grown.hops.into()
        }
    }
}

// The value is the count of hops that the growth completed.
#[tactic(auto, unfolding(crate::specs::Repeated::hops_answer))]
pub fn hybit_repeated_growth(
    nrows: usize,
    ncols: usize,
    row_word_ptr: &[u32],
    row_word_indices: &[u32],
    row_masks: &[u64],
    structural_nnz: usize,
    column_nrows: usize,
    column_ncols: usize,
    column_word_ptr: &[u32],
    column_word_indices: &[u32],
    column_masks: &[u64],
    column_structural_nnz: usize,
    len: usize,
    words: &[u64],
    hops: u64,
    times: u64,
    region: &mut [u64],
    frontier: &mut [u64],
    scratch: &mut [u64],
) -> Answer
    ensures value { result ≡ (grown_of nrows ncols row_word_ptr.now row_word_indices.now row_masks.now structural_nnz column_nrows column_ncols column_word_ptr.now column_word_indices.now column_masks.now column_structural_nnz len words.now hops region.old frontier.old scratch.old).answer }
    ensures inside { region.new ≡ (grown_of nrows ncols row_word_ptr.now row_word_indices.now row_masks.now structural_nnz column_nrows column_ncols column_word_ptr.now column_word_indices.now column_masks.now column_structural_nnz len words.now hops region.old frontier.old scratch.old).region }
    ensures edge { frontier.new ≡ (grown_of nrows ncols row_word_ptr.now row_word_indices.now row_masks.now structural_nnz column_nrows column_ncols column_word_ptr.now column_word_indices.now column_masks.now column_structural_nnz len words.now hops region.old frontier.old scratch.old).frontier }
    ensures spent { scratch.new ≡ (grown_of nrows ncols row_word_ptr.now row_word_indices.now row_masks.now structural_nnz column_nrows column_ncols column_word_ptr.now column_word_indices.now column_masks.now column_structural_nnz len words.now hops region.old frontier.old scratch.old).scratch }
{
    repeated_growth(
        views::topology(
            nrows,
            ncols,
            row_word_ptr,
            row_word_indices,
            row_masks,
            structural_nnz,
            column_nrows,
            column_ncols,
            column_word_ptr,
            column_word_indices,
            column_masks,
            column_structural_nnz,
        ),
        views::mask(len, words),
        hops,
        times,
        region,
        frontier,
        scratch,
    )
}

// One field growth, and `times` more.
fn repeat_blocks(
    graph: FieldGraph,
    seeds: Mask,
    hops: u64,
    times: u64,
    region: &mut [u64],
    frontier: &mut [u64],
    scratch: &mut [u64],
) -> BlocksGrown
    requires { (seeds.len ≡ graph.graph.n) × (length region.old ≡ words_needed graph.graph.n) × (length frontier.old ≡ words_needed graph.graph.n) × (length scratch.old ≡ words_needed graph.graph.n) }
    ensures value { result ≡ blocks_grown_by (fields graph.entry) seeds.entry.words.now hops }
    ensures region_after { region.new ≡ region_words (fields graph.entry) seeds.entry.words.now hops }
    ensures frontier_after { frontier.new ≡ frontier_words (fields graph.entry) seeds.entry.words.now hops }
    ensures scratch_after { scratch.new ≡ mask_words (total_of graph.entry.layout.components.now) (λ i. false) }
{
    let mut grown = graph.grow_blocks(seeds, hops, region, frontier, scratch);
    for _ in 0..times {
        grown = graph.grow_blocks(seeds, hops, region, frontier, scratch);
    }
    grown
}

// A field growth as lent, and `times` + 1 more with what its checks gave.
#[tactic(auto, unfolding(crate::specs::Repeated::field_hops_answer))]
fn repeated_field_growth<'a>(
    topology: AbtmDualTopology<'a>,
    layout: FieldAwareDofLayout<'a>,
    mask: DofMask<'a>,
    hops: u64,
    times: u64,
    region: &mut [u64],
    frontier: &mut [u64],
    scratch: &mut [u64],
) -> Answer
    requires { Words topology mask }
    ensures value { result ≡ field_hops_answer (field_grow_answer (check_field_grow topology.entry layout.entry mask.entry region.old frontier.old scratch.old) (blocked topology.entry layout.entry) mask.entry.words.now hops) }
    ensures inside { region.new ≡ region_left (check_field_grow topology.entry layout.entry mask.entry region.old frontier.old scratch.old) (blocked topology.entry layout.entry) mask.entry.words.now hops region.old }
    ensures edge { frontier.new ≡ frontier_left (check_field_grow topology.entry layout.entry mask.entry region.old frontier.old scratch.old) (blocked topology.entry layout.entry) mask.entry.words.now hops frontier.old }
    ensures spent { scratch.new ≡ scratch_left (check_field_grow topology.entry layout.entry mask.entry region.old frontier.old scratch.old) (total layout.entry) scratch.old }
{
    match field_region::grow_field_aware_region(
        topology, layout, mask, hops, region, frontier, scratch,
    ) {
        Err(r) => r.into(),
        Ok(_) => {
            let n = topology.rows.nrows;
            let need = mask::inner::words_for(n);
            let graph = field_graph_of(topology, layout);
            let seeds = Mask {
                len: n,
                words: mask.words,
            };
            let grown = repeat_blocks(
                graph,
                seeds,
                hops,
                times,
                &mut region[..need],
                &mut frontier[..need],
                &mut scratch[..need],
            );
            grown.grown.hops.into()
        }
    }
}

// The value is the count of hops that the growth completed.
#[tactic(auto, unfolding(crate::specs::Repeated::field_hops_answer))]
pub fn hybit_repeated_field_growth(
    nrows: usize,
    ncols: usize,
    row_word_ptr: &[u32],
    row_word_indices: &[u32],
    row_masks: &[u64],
    structural_nnz: usize,
    column_nrows: usize,
    column_ncols: usize,
    column_word_ptr: &[u32],
    column_word_indices: &[u32],
    column_masks: &[u64],
    column_structural_nnz: usize,
    entity_kinds: &[u8],
    entity_ids: &[u64],
    field_ids: &[u32],
    components: &[u32],
    offsets: &[u64],
    len: usize,
    words: &[u64],
    hops: u64,
    times: u64,
    region: &mut [u64],
    frontier: &mut [u64],
    scratch: &mut [u64],
) -> Answer
    ensures value { result ≡ (field_grown_of nrows ncols row_word_ptr.now row_word_indices.now row_masks.now structural_nnz column_nrows column_ncols column_word_ptr.now column_word_indices.now column_masks.now column_structural_nnz entity_kinds.now entity_ids.now field_ids.now components.now offsets.now len words.now hops region.old frontier.old scratch.old).answer }
    ensures inside { region.new ≡ (field_grown_of nrows ncols row_word_ptr.now row_word_indices.now row_masks.now structural_nnz column_nrows column_ncols column_word_ptr.now column_word_indices.now column_masks.now column_structural_nnz entity_kinds.now entity_ids.now field_ids.now components.now offsets.now len words.now hops region.old frontier.old scratch.old).region }
    ensures edge { frontier.new ≡ (field_grown_of nrows ncols row_word_ptr.now row_word_indices.now row_masks.now structural_nnz column_nrows column_ncols column_word_ptr.now column_word_indices.now column_masks.now column_structural_nnz entity_kinds.now entity_ids.now field_ids.now components.now offsets.now len words.now hops region.old frontier.old scratch.old).frontier }
    ensures spent { scratch.new ≡ (field_grown_of nrows ncols row_word_ptr.now row_word_indices.now row_masks.now structural_nnz column_nrows column_ncols column_word_ptr.now column_word_indices.now column_masks.now column_structural_nnz entity_kinds.now entity_ids.now field_ids.now components.now offsets.now len words.now hops region.old frontier.old scratch.old).scratch }
{
    repeated_field_growth(
        views::topology(
            nrows,
            ncols,
            row_word_ptr,
            row_word_indices,
            row_masks,
            structural_nnz,
            column_nrows,
            column_ncols,
            column_word_ptr,
            column_word_indices,
            column_masks,
            column_structural_nnz,
        ),
        views::layout(entity_kinds, entity_ids, field_ids, components, offsets),
        views::mask(len, words),
        hops,
        times,
        region,
        frontier,
        scratch,
    )
}

// The closing `times` more, on a list that holds it: it stays as it is.
fn repeat_closing(layout: Layout, mask: Mask, times: u64, out: &mut [u64])
    requires { (mask.len ≡ total_of layout.components.now) × (out.old ≡ closed_words layout.components.now mask.words.now) }
    ensures { out.new ≡ out.old }
{
    for _ in 0..times {
        field_region::inner::close(layout.components, layout.offsets, mask, out);
    }
}

// A closing as lent, and `times` more with what its checks gave.
#[tactic(auto, unfolding(crate::specs::Repeated::count_answer))]
fn repeated_closing(
    layout: FieldAwareDofLayout,
    mask: DofMask,
    times: u64,
    out: &mut [u64],
) -> Answer
    requires { (w : ℕ) → get_or mask.words.now w 0 < 2 ^ 64 }
    ensures value { result ≡ count_answer (close_answer (check_closing layout.entry mask.entry out.old) mask.entry.len) }
    ensures out_after { out.new ≡ close_words (check_closing layout.entry mask.entry out.old) layout.entry.blocks.components.now mask.entry.words.now out.old }
{
    match field_region::close_to_field_blocks(layout, mask, out) {
        Err(r) => r.into(),
        Ok(nodes) => {
            let need = mask::inner::words_for(mask.len);
            let accepted = Layout {
                components: layout.blocks.components,
                offsets: layout.offsets,
            };
            let seeds = Mask {
                len: mask.len,
                words: mask.words,
            };
            repeat_closing(accepted, seeds, times, &mut out[..need]);
            nodes.into()
        }
    }
}

// The value is the count of nodes.
pub fn hybit_repeated_closing(
    entity_kinds: &[u8],
    entity_ids: &[u64],
    field_ids: &[u32],
    components: &[u32],
    offsets: &[u64],
    len: usize,
    words: &[u64],
    times: u64,
    out: &mut [u64],
) -> Answer
    ensures value { result ≡ count_answer (close_answer (close_check entity_kinds.now entity_ids.now field_ids.now components.now offsets.now len words.now out.old) len) }
    ensures out_after { out.new ≡ close_words (close_check entity_kinds.now entity_ids.now field_ids.now components.now offsets.now len words.now out.old) components.now words.now out.old }
{
    repeated_closing(
        views::layout(entity_kinds, entity_ids, field_ids, components, offsets),
        views::mask(len, words),
        times,
        out,
    )
}
