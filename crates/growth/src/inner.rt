// The steps of a growth, for callers that have checked: no part of the API.
ghost use Rattle.std.specs.Prelude.{◌≡◌, Err, IfOk, IfErr, false, ◌||◌, ◌+◌, ◌<◌, ◌≤◌, length};
ghost use Rattle.base.specs.Checks.{side_limit};
ghost use Rattle.base.specs.Sets.{any_below};
ghost use Rattle.mask.specs.Mask.{in_mask, words_needed, mask_words, IsMask};
ghost use Rattle.mask.specs.Answers.{combined, union, and_not_of};
ghost use Rattle.side.specs.Check.{IsSide};
ghost use Rattle.dual_topology.specs.Views.{SizedTopology};
ghost use Rattle.graph.specs.Network.{Network, plain_network, closed, touched, region_words, frontier_words};
ghost use Rattle.growth.specs.Visits.{visits_of, grown_by, Sound};
ghost use Rattle.growth.specs.Lent.{masks_room};

use crate::{Grown, Taken, Visited};
use base::Refusal;
use dual_topology::AbtmDualTopology;
use dual_topology::inner::Topology;
use mask::inner::Mask;
use side::inner::Side;

// The lengths of the three lists.
#[tactic(auto, using(base::proofs::Checks::checks), unfolding(crate::specs::Lent::masks_room))]
pub fn check_room(n: usize, region: usize, frontier: usize, scratch: usize) -> Result<(), Refusal>
    requires { n ≤ side_limit }
    ensures value { result ≡ masks_room n region frontier scratch }
    ensures accepted { IfOk result (λ t. (words_needed n ≤ region) × (words_needed n ≤ frontier) × (words_needed n ≤ scratch)) }
{
    let need = mask::inner::words_for(n);
    if region < need || frontier < need || scratch < need {
        return Err(Refusal::ListTooShort);
    }
    Ok(())
}

// A square topology that was accepted: its graph on n nodes. `n` is its rows' number and its columns', and stands for both in what follows.
#[derive(Clone, Copy)]
pub struct Graph<'a> {
    pub n: usize,
    pub topology: Topology<'a>,
    ghost square: { SizedTopology n n topology },
}

// One side of a graph: its rows, or its columns as rows.
#[derive(Clone, Copy)]
struct Rows<'a> {
    n: usize,
    side: Side<'a>,
    ghost square: { IsSide n n side.row_word_ptr.now side.word_indices.now side.masks.now },
}

impl Rows<'_> {
    ghost use Rattle.side.specs.Views.{pairs};
    ghost use Rattle.growth.specs.Visits.{taken_of};

    // Row i joins the mask, word by word: a position in two lists, one of the forms that are asked for, stands for the Rust's iterator `words()`.
    fn take(self, i: usize, reached: &mut [u64]) -> Taken
        requires { IsMask self.n reached.old × (i < self.n) }
        ensures value { result ≡ taken_of self.entry.n (pairs self.entry.side i) }
        ensures reached_after { reached.new ≡ mask_words self.entry.n (λ j. in_mask reached.old j || pairs self.entry.side i j) }
    {
        let from = self.side.row_word_ptr[i] as usize;
        let to = self.side.row_word_ptr[i + 1] as usize;
        let mut bits: u64 = 0;
        for k in from..to {
            let mask = self.side.masks[k];
            reached[self.side.word_indices[k] as usize] |= mask;
            bits += u64::count_ones(mask) as u64;
        }
        Taken {
            words: (to - from) as u64,
            bits,
        }
    }
}

// What is new in `reached` becomes the frontier and joins the region; `reached` is spent. Whether there is anything new. Here and below, of lists
// that are written each has an equation, and in a struct behind `&mut` each contract would say besides that the references stay. By index: word w
// of three lists, where zips would give a pair within a pair.
pub fn settle(n: usize, region: &mut [u64], frontier: &mut [u64], reached: &mut [u64]) -> bool
    requires { IsMask n region.old × IsMask n frontier.old × IsMask n reached.old }
    ensures value { result ≡ any_below n (in_mask frontier.new) }
    ensures region_after { region.new ≡ combined union n region.old reached.old }
    ensures frontier_after { frontier.new ≡ combined and_not_of n reached.old region.old }
    ensures reached_after { reached.new ≡ mask_words n (λ i. false) }
{
    let mut fresh_bits: u64 = 0;
    for w in 0..region.len() {
        let fresh = reached[w] & !region[w];
        region[w] |= fresh;
        frontier[w] = fresh;
        reached[w] = 0;
        fresh_bits |= fresh;
    }
    fresh_bits != 0
}

// What grows hop by hop: its network, and how far one hop reaches.
pub trait Hop {
    ghost network: { Self → Network };

    // The blocks that are linked to one of the frontier's, joined whole into `reached`, a mask of none.
    fn reach(&self, frontier: Mask, reached: &mut [u64]) -> Visited
        requires { (frontier.len ≡ (network self.now).nodes) × (reached.old ≡ mask_words (network self.now).nodes (λ i. false)) }
        ensures value { result ≡ visits_of (network self.now).nodes (network self.now).stored (in_mask frontier.entry.words.now) }
        ensures reached_after { reached.new ≡ mask_words (network self.now).nodes (closed (network self.now).nodes (network self.now).block (touched (network self.now).nodes (network self.now).stored (in_mask frontier.entry.words.now))) };
}

// The masks after `hops` hops, of which `region` holds the start: the seeds' blocks. A hop is made on a frontier that holds a node; the hop that
// finds nothing is the last.
pub fn grow_by_hops<H: Hop>(
    graph: &H,
    seeds: Mask,
    hops: u64,
    region: &mut [u64],
    frontier: &mut [u64],
    scratch: &mut [u64],
) -> Grown
    requires { Sound (H.network graph.now) × (seeds.len ≡ (H.network graph.now).nodes) × (region.old ≡ mask_words (H.network graph.now).nodes (closed (H.network graph.now).nodes (H.network graph.now).block (in_mask seeds.words.now))) × (length frontier.old ≡ words_needed seeds.len) × (length scratch.old ≡ words_needed seeds.len) }
    ensures value { result ≡ grown_by (H.network graph.now) seeds.entry.words.now hops }
    ensures region_after { region.new ≡ region_words (H.network graph.now) seeds.entry.words.now hops }
    ensures frontier_after { frontier.new ≡ frontier_words (H.network graph.now) seeds.entry.words.now hops }
    ensures scratch_after { scratch.new ≡ mask_words (H.network graph.now).nodes (λ i. false) }
{
    let n = seeds.len;
    let start = Mask {
        len: n,
        words: region,
    };
    start.copy(frontier);
    let mut some = start.any_node();
    mask::inner::clear(n, scratch);
    let mut visits = Visited::default();
    for k in 0..hops {
        if !some {
            return Grown { hops: k, visits };
        }
        let found = graph.reach(
            Mask {
                len: n,
                words: frontier,
            },
            scratch,
        );
        visits = visits + found;
        some = settle(n, region, frontier, scratch);
    }
    Grown { hops, visits }
}

impl<'a> Hop for Graph<'a> {
    ghost use Rattle.side.specs.Views.{pairs};

    ghost network = { λ g. plain_network g.n (pairs g.topology.rows) };

    fn reach(&self, frontier: Mask, reached: &mut [u64]) -> Visited {
        self.expand(frontier, reached)
    }
}

impl<'a> Graph<'a> {
    ghost use Rattle.dual_topology.specs.Views.{check_square_topology, AcceptedFrom};

    // The graph of a topology that is lent, which must be square.
    pub fn of(topology: AbtmDualTopology<'a>) -> Result<Graph<'a>, Refusal>
        ensures refused { IfErr result (λ e. check_square_topology topology.entry ≡ Err e) }
        ensures accepted { IfOk result (λ g. (check_square_topology topology.entry ≡ Ok tt) × (g.n ≡ topology.entry.rows.nrows) × AcceptedFrom topology.entry g.topology) }
    {
        let topology = topology.accept()?;
        let n = topology.rows.nrows;
        if n != topology.rows.ncols {
            return Err(Refusal::NotSquare);
        }
        Ok(Graph { n, topology })
    }
}

impl Graph<'_> {
    ghost use Rattle.side.specs.Views.{pairs};

    // The nodes that an entry, at either order, joins to the frontier: its members' rows and columns joined into `reached`, a mask of none. Four sums
    // stand one by one: Visited's `+` would have each node make a struct of its four first.
    pub fn expand(self, frontier: Mask, reached: &mut [u64]) -> Visited
        requires { (frontier.len ≡ self.n) × (reached.old ≡ mask_words self.n (λ i. false)) }
        ensures value { result ≡ visits_of self.entry.n (pairs self.entry.topology.rows) (in_mask frontier.entry.words.now) }
        ensures reached_after { reached.new ≡ mask_words self.entry.n (touched self.entry.n (pairs self.entry.topology.rows) (in_mask frontier.entry.words.now)) }
    {
        let rows = Rows {
            n: self.n,
            side: self.topology.rows,
        };
        let columns = Rows {
            n: self.n,
            side: self.topology.columns,
        };
        let mut nodes: u64 = 0;
        let mut row_words: u64 = 0;
        let mut column_words: u64 = 0;
        let mut candidate_bits: u64 = 0;
        for i in frontier.members() {
            let row = rows.take(i, reached);
            let column = columns.take(i, reached);
            nodes += 1;
            row_words += row.words;
            column_words += column.words;
            candidate_bits += row.bits + column.bits;
        }
        Visited {
            nodes,
            row_words,
            column_words,
            candidate_bits,
        }
    }

    // The masks after `hops` hops from the seeds.
    pub fn grow(
        self,
        seeds: Mask,
        hops: u64,
        region: &mut [u64],
        frontier: &mut [u64],
        scratch: &mut [u64],
    ) -> Grown
        requires { (seeds.len ≡ self.n) × (length region.old ≡ words_needed self.n) × (length frontier.old ≡ words_needed self.n) × (length scratch.old ≡ words_needed self.n) }
        ensures value { result ≡ grown_by (plain_network self.entry.n (pairs self.entry.topology.rows)) seeds.entry.words.now hops }
        ensures region_after { region.new ≡ region_words (plain_network self.entry.n (pairs self.entry.topology.rows)) seeds.entry.words.now hops }
        ensures frontier_after { frontier.new ≡ frontier_words (plain_network self.entry.n (pairs self.entry.topology.rows)) seeds.entry.words.now hops }
        ensures scratch_after { scratch.new ≡ mask_words self.entry.n (λ i. false) }
    {
        seeds.copy(region);
        grow_by_hops(&self, seeds, hops, region, frontier, scratch)
    }
}
