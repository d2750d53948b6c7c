// Regions of a topology's graph, region.rs of the Rust: growth hop by hop over rows and columns.
#![tactic(auto)]

ghost use Rattle.std.specs.Prelude.{◌≡◌, ◌≤◌, length, replicate};
ghost use Rattle.base.specs.Lists.{over};
ghost use Rattle.mask.specs.Mask.{words_needed};
ghost use Rattle.side.specs.Views.{pairs};
ghost use Rattle.graph.specs.Network.{plain_network, region_words, frontier_words};
ghost use Rattle.growth.specs.Lent.{region_left, frontier_left, scratch_left};
ghost use Rattle.region.specs.Growth.{stats_of_growth, grow_answer, words_visited, nodes_added};
ghost use Rattle.region.specs.Views.{check_grow, plain};

use base::Refusal;
use dual_topology::AbtmDualTopology;
use growth::inner::Graph;
use mask::DofMask;
use mask::inner::Mask;

// What a growth did: its hops, how many nodes its seeds and its region hold, and what its hops visited.
#[derive(Clone, Copy)]
pub struct AbtmRegionGrowthStats {
    pub hops_requested: u64,
    pub hops_completed: u64,
    pub seed_nodes: u64,
    pub region_nodes: u64,
    pub frontier_nodes_visited: u64,
    pub row_words_visited: u64,
    pub column_words_visited: u64,
    pub candidate_neighbor_bits: u64,
}

impl AbtmRegionGrowthStats {
    pub fn topology_words_visited(self) -> u64
        ensures { result ≡ words_visited self }
    {
        self.row_words_visited
            .saturating_add(self.column_words_visited)
    }

    pub fn new_nodes(self) -> u64
        ensures { result ≡ nodes_added self }
    {
        self.region_nodes.saturating_sub(self.seed_nodes)
    }
}

// A growth and its statistics, on lists that reach their needed lengths; `scratch` is left zero. Field growth has a function of its own: what is
// the same in both is how the lists are cut, while the growth, its statistics and their names are not.
fn grow(
    graph: Graph,
    seeds: Mask,
    hops: u64,
    region: &mut [u64],
    frontier: &mut [u64],
    scratch: &mut [u64],
) -> AbtmRegionGrowthStats
    requires { (seeds.len ≡ graph.n) × (words_needed graph.n ≤ length region.old) × (words_needed graph.n ≤ length frontier.old) × (words_needed graph.n ≤ length scratch.old) }
    ensures value { result ≡ stats_of_growth (plain_network graph.entry.n (pairs graph.entry.topology.rows)) seeds.entry.words.now hops }
    ensures inside { region.new ≡ over (region_words (plain_network graph.entry.n (pairs graph.entry.topology.rows)) seeds.entry.words.now hops) region.old }
    ensures edge { frontier.new ≡ over (frontier_words (plain_network graph.entry.n (pairs graph.entry.topology.rows)) seeds.entry.words.now hops) frontier.old }
    ensures spent { scratch.new ≡ over (replicate (words_needed graph.entry.n) 0) scratch.old }
{
    let need = mask::inner::words_for(graph.n);
    let grown = graph.grow(
        seeds,
        hops,
        &mut region[..need],
        &mut frontier[..need],
        &mut scratch[..need],
    );
    let inside = Mask {
        len: graph.n,
        words: &region[..need],
    };
    AbtmRegionGrowthStats {
        hops_requested: hops,
        hops_completed: grown.hops,
        seed_nodes: seeds.count(),
        region_nodes: inside.count(),
        frontier_nodes_visited: grown.visits.nodes,
        row_words_visited: grown.visits.row_words,
        column_words_visited: grown.visits.column_words,
        candidate_neighbor_bits: grown.visits.candidate_bits,
    }
}

// The nodes within `hops` links of the mask's nodes, and those at exactly so many. The lists take a mask each; `scratch` is left zero. They are
// written, each with an equation of its own, and so handed in one by one.
#[tactic(auto, using(base::proofs::Checks::checks), unfolding(crate::specs::Growth::grow_check))]
pub fn grow_undirected_region(
    topology: AbtmDualTopology,
    mask: DofMask,
    hops: u64,
    region: &mut [u64],
    frontier: &mut [u64],
    scratch: &mut [u64],
) -> Result<AbtmRegionGrowthStats, Refusal>
    ensures value { result ≡ grow_answer (check_grow topology.entry mask.entry region.old frontier.old scratch.old) (plain topology.entry) mask.entry.words.now hops }
    ensures inside { region.new ≡ region_left (check_grow topology.entry mask.entry region.old frontier.old scratch.old) (plain topology.entry) mask.entry.words.now hops region.old }
    ensures edge { frontier.new ≡ frontier_left (check_grow topology.entry mask.entry region.old frontier.old scratch.old) (plain topology.entry) mask.entry.words.now hops frontier.old }
    ensures spent { scratch.new ≡ scratch_left (check_grow topology.entry mask.entry region.old frontier.old scratch.old) topology.entry.rows.nrows scratch.old }
{
    let graph = Graph::of(topology)?;
    let seeds = mask.accept_of(graph.n)?;
    growth::inner::check_room(graph.n, region.len(), frontier.len(), scratch.len())?;
    Ok(grow(graph, seeds, hops, region, frontier, scratch))
}
