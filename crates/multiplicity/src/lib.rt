// How many regions hold each node, and the weight of a region at a node: `region_multiplicity` of region.rs, and its share of the node, which the
// Rust does not have. The regions stand one after the other in a flat list of words, each a mask of all nodes.
#![tactic(auto)]

ghost use Rattle.std.specs.Prelude.{◌≡◌};
ghost use Rattle.multiplicity.specs.Views.{answer_counts, list_counts, answer_weight};

use base::Refusal;

pub mod inner;

// The Rust's three methods are fields: to f64 goes only what is known to be below 2^53.
#[derive(Clone, Copy)]
pub struct AbtmRegionMultiplicityStats {
    pub region_count: u64,
    pub node_count: u64,
    pub total_memberships: u64,
    pub covered_nodes: u64,
    pub overlap_nodes: u64,
    pub max_multiplicity: u32,
    pub pair_overlap_memberships: u64,
    pub extra_memberships: u64,
    pub average_multiplicity_on_covered: f64,
    pub overlap_fraction_on_covered: f64,
}

// Regions as a caller lends them: the words of one mask of all nodes after the other.
#[derive(Clone, Copy)]
pub struct FlatRegions<'a> {
    pub node_count: usize,
    pub region_count: usize,
    pub words: &'a [u64],
}

// A count for each node. The room is tested and the list cut here: a function for both would hand back a part that is written, and each contract
// would say besides what becomes of the rest.
pub fn region_multiplicity(
    regions: FlatRegions,
    counts: &mut [u32],
) -> Result<AbtmRegionMultiplicityStats, Refusal>
    ensures value { result ≡ answer_counts regions.entry counts.old }
    ensures counts_after { counts.new ≡ list_counts regions.entry counts.old }
{
    let regions = regions.accept()?;
    let need = regions.node_count;
    if need > counts.len() {
        return Err(Refusal::ListTooShort);
    }
    regions.count(&mut counts[..need]);
    Ok(inner::tally(regions.region_count, &counts[..need]))
}

// The region's share of the node in parts of 65,536.
pub fn weight(regions: FlatRegions, region: u64, node: u64) -> Result<u64, Refusal>
    ensures { result ≡ answer_weight regions.entry region node }
{
    let regions = regions.accept()?;
    if region >= regions.region_count as u64 || node >= regions.node_count as u64 {
        return Err(Refusal::OutOfRange);
    }
    if !regions.holds(region as usize, node as usize) {
        return Ok(0);
    }
    Ok(65536 / regions.multiplicity(node as usize))
}
