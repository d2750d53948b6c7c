// The calls on regions with flat answers: growth, field growth, closing to blocks, owners, multiplicity, weight.
ghost use Rattle.std.specs.Prelude.{◌≡◌};
ghost use Rattle.field_region.specs.Closure.{close_check, close_answer, close_words};
ghost use Rattle.field_region.specs.Owners.{owners_check, owners_answer, owners_list};
ghost use Rattle.multiplicity.specs.Multiplicity.{multiplicity_check, multiplicity_answer, multiplicity_counts, weight_answer};
ghost use Rattle.hybit_matrix.specs.Flat.{flat_of_counted};
ghost use Rattle.hybit_matrix.specs.FlatRegions.{flat_of_grown, flat_of_field_grown, flat_of_regions, grown_of, field_grown_of};

use crate::{Answer, refused, views};
use base::Refusal;
use field_region::FieldAwareRegionStats;
use multiplicity::AbtmRegionMultiplicityStats;
use region::AbtmRegionGrowthStats;

// The statistics of a growth, and the two figures that follow from them; all 0 on a refusal.
#[repr(C)]
#[derive(Clone, Copy, Default)]
pub struct GrowthAnswer {
    pub number: u32,
    pub present: bool,
    pub expected: u64,
    pub actual: u64,
    pub hops_requested: u64,
    pub hops_completed: u64,
    pub seed_nodes: u64,
    pub region_nodes: u64,
    pub frontier_nodes_visited: u64,
    pub row_words_visited: u64,
    pub column_words_visited: u64,
    pub candidate_neighbor_bits: u64,
    pub topology_words_visited: u64,
    pub new_nodes: u64,
}

// The statistics of a field growth; all 0 on a refusal.
#[repr(C)]
#[derive(Clone, Copy, Default)]
pub struct FieldGrowthAnswer {
    pub number: u32,
    pub present: bool,
    pub expected: u64,
    pub actual: u64,
    pub hops_requested: u64,
    pub hops_completed: u64,
    pub seed_dofs: u64,
    pub block_closed_seed_dofs: u64,
    pub region_dofs: u64,
    pub region_blocks: u64,
    pub frontier_dofs_visited: u64,
    pub row_words_visited: u64,
    pub column_words_visited: u64,
    pub candidate_neighbor_bits: u64,
}

// The statistics of the regions; all 0 on a refusal.
#[repr(C)]
#[derive(Clone, Copy, Default)]
pub struct MultiplicityAnswer {
    pub number: u32,
    pub present: bool,
    pub expected: u64,
    pub actual: u64,
    pub region_count: u64,
    pub node_count: u64,
    pub total_memberships: u64,
    pub covered_nodes: u64,
    pub overlap_nodes: u64,
    pub max_multiplicity: u64,
    pub pair_overlap_memberships: u64,
    pub extra_memberships: u64,
    pub average_multiplicity_on_covered: f64,
    pub overlap_fraction_on_covered: f64,
}

impl From<Result<AbtmRegionGrowthStats, Refusal>> for GrowthAnswer {
    ghost from_gives = { λ r a. a ≡ flat_of_grown r };

    #[tactic(auto, unfolding(crate::specs::FlatRegions::flat_of_grown))]
    fn from(s: Result<AbtmRegionGrowthStats, Refusal>) -> Self {
        match s {
            Ok(x) => Self {
                present: true,
                hops_requested: x.hops_requested,
                hops_completed: x.hops_completed,
                seed_nodes: x.seed_nodes,
                region_nodes: x.region_nodes,
                frontier_nodes_visited: x.frontier_nodes_visited,
                row_words_visited: x.row_words_visited,
                column_words_visited: x.column_words_visited,
                candidate_neighbor_bits: x.candidate_neighbor_bits,
                topology_words_visited: x.topology_words_visited(),
                new_nodes: x.new_nodes(),
                ..Self::default()
            },
            Err(r) => refused!(r),
        }
    }
}

impl From<Result<FieldAwareRegionStats, Refusal>> for FieldGrowthAnswer {
    ghost from_gives = { λ r a. a ≡ flat_of_field_grown r };

    #[tactic(auto, unfolding(crate::specs::FlatRegions::flat_of_field_grown))]
    fn from(s: Result<FieldAwareRegionStats, Refusal>) -> Self {
        match s {
            Ok(x) => Self {
                present: true,
                hops_requested: x.hops_requested,
                hops_completed: x.hops_completed,
                seed_dofs: x.seed_dofs,
                block_closed_seed_dofs: x.block_closed_seed_dofs,
                region_dofs: x.region_dofs,
                region_blocks: x.region_blocks,
                frontier_dofs_visited: x.frontier_dofs_visited,
                row_words_visited: x.row_words_visited,
                column_words_visited: x.column_words_visited,
                candidate_neighbor_bits: x.candidate_neighbor_bits,
                ..Self::default()
            },
            Err(r) => refused!(r),
        }
    }
}

impl From<Result<AbtmRegionMultiplicityStats, Refusal>> for MultiplicityAnswer {
    ghost from_gives = { λ r a. a ≡ flat_of_regions r };

    #[tactic(auto, unfolding(crate::specs::FlatRegions::flat_of_regions))]
    fn from(s: Result<AbtmRegionMultiplicityStats, Refusal>) -> Self {
        match s {
            Ok(x) => Self {
                present: true,
                region_count: x.region_count,
                node_count: x.node_count,
                total_memberships: x.total_memberships,
                covered_nodes: x.covered_nodes,
                overlap_nodes: x.overlap_nodes,
                max_multiplicity: x.max_multiplicity as u64,
                pair_overlap_memberships: x.pair_overlap_memberships,
                extra_memberships: x.extra_memberships,
                average_multiplicity_on_covered: x.average_multiplicity_on_covered,
                overlap_fraction_on_covered: x.overlap_fraction_on_covered,
                ..Self::default()
            },
            Err(r) => refused!(r),
        }
    }
}

// Region and frontier after `hops` hops, each node a block. Three masks of the side: region, frontier, and scratch, zero afterwards. Refuses as
// the topology, 10, 11, 12 for the seeds, 25.
pub fn hybit_grow_undirected_region(
    nrows: usize,
    ncols: usize,
    row_word_ptr: &[u32],
    row_word_indices: &[u32],
    row_masks: &[u64],
    structural_nnz: usize,
    column_nrows: usize,
    column_ncols: usize,
    column_word_ptr: &[u32],
    column_word_indices: &[u32],
    column_masks: &[u64],
    column_structural_nnz: usize,
    len: usize,
    words: &[u64],
    hops: u64,
    region: &mut [u64],
    frontier: &mut [u64],
    scratch: &mut [u64],
) -> GrowthAnswer
    ensures value { result ≡ (grown_of nrows ncols row_word_ptr.now row_word_indices.now row_masks.now structural_nnz column_nrows column_ncols column_word_ptr.now column_word_indices.now column_masks.now column_structural_nnz len words.now hops region.old frontier.old scratch.old).answer }
    ensures inside { region.new ≡ (grown_of nrows ncols row_word_ptr.now row_word_indices.now row_masks.now structural_nnz column_nrows column_ncols column_word_ptr.now column_word_indices.now column_masks.now column_structural_nnz len words.now hops region.old frontier.old scratch.old).region }
    ensures edge { frontier.new ≡ (grown_of nrows ncols row_word_ptr.now row_word_indices.now row_masks.now structural_nnz column_nrows column_ncols column_word_ptr.now column_word_indices.now column_masks.now column_structural_nnz len words.now hops region.old frontier.old scratch.old).frontier }
    ensures spent { scratch.new ≡ (grown_of nrows ncols row_word_ptr.now row_word_indices.now row_masks.now structural_nnz column_nrows column_ncols column_word_ptr.now column_word_indices.now column_masks.now column_structural_nnz len words.now hops region.old frontier.old scratch.old).scratch }
{
    region::grow_undirected_region(
        views::topology(
            nrows,
            ncols,
            row_word_ptr,
            row_word_indices,
            row_masks,
            structural_nnz,
            column_nrows,
            column_ncols,
            column_word_ptr,
            column_word_indices,
            column_masks,
            column_structural_nnz,
        ),
        views::mask(len, words),
        hops,
        region,
        frontier,
        scratch,
    )
    .into()
}

// The same by whole blocks of the layout. Refuses as the topology, the layout, 18, 11, 12 for the seeds, 25.
pub fn hybit_grow_field_aware_region(
    nrows: usize,
    ncols: usize,
    row_word_ptr: &[u32],
    row_word_indices: &[u32],
    row_masks: &[u64],
    structural_nnz: usize,
    column_nrows: usize,
    column_ncols: usize,
    column_word_ptr: &[u32],
    column_word_indices: &[u32],
    column_masks: &[u64],
    column_structural_nnz: usize,
    entity_kinds: &[u8],
    entity_ids: &[u64],
    field_ids: &[u32],
    components: &[u32],
    offsets: &[u64],
    len: usize,
    words: &[u64],
    hops: u64,
    region: &mut [u64],
    frontier: &mut [u64],
    scratch: &mut [u64],
) -> FieldGrowthAnswer
    ensures value { result ≡ (field_grown_of nrows ncols row_word_ptr.now row_word_indices.now row_masks.now structural_nnz column_nrows column_ncols column_word_ptr.now column_word_indices.now column_masks.now column_structural_nnz entity_kinds.now entity_ids.now field_ids.now components.now offsets.now len words.now hops region.old frontier.old scratch.old).answer }
    ensures inside { region.new ≡ (field_grown_of nrows ncols row_word_ptr.now row_word_indices.now row_masks.now structural_nnz column_nrows column_ncols column_word_ptr.now column_word_indices.now column_masks.now column_structural_nnz entity_kinds.now entity_ids.now field_ids.now components.now offsets.now len words.now hops region.old frontier.old scratch.old).region }
    ensures edge { frontier.new ≡ (field_grown_of nrows ncols row_word_ptr.now row_word_indices.now row_masks.now structural_nnz column_nrows column_ncols column_word_ptr.now column_word_indices.now column_masks.now column_structural_nnz entity_kinds.now entity_ids.now field_ids.now components.now offsets.now len words.now hops region.old frontier.old scratch.old).frontier }
    ensures spent { scratch.new ≡ (field_grown_of nrows ncols row_word_ptr.now row_word_indices.now row_masks.now structural_nnz column_nrows column_ncols column_word_ptr.now column_word_indices.now column_masks.now column_structural_nnz entity_kinds.now entity_ids.now field_ids.now components.now offsets.now len words.now hops region.old frontier.old scratch.old).scratch }
{
    field_region::grow_field_aware_region(
        views::topology(
            nrows,
            ncols,
            row_word_ptr,
            row_word_indices,
            row_masks,
            structural_nnz,
            column_nrows,
            column_ncols,
            column_word_ptr,
            column_word_indices,
            column_masks,
            column_structural_nnz,
        ),
        views::layout(entity_kinds, entity_ids, field_ids, components, offsets),
        views::mask(len, words),
        hops,
        region,
        frontier,
        scratch,
    )
    .into()
}

// The whole blocks of the nodes in `out`, a mask of the total; value: the total. Refuses as the layout, 11, 12 for the mask, 25.
pub fn hybit_close_to_field_blocks(
    entity_kinds: &[u8],
    entity_ids: &[u64],
    field_ids: &[u32],
    components: &[u32],
    offsets: &[u64],
    len: usize,
    words: &[u64],
    out: &mut [u64],
) -> Answer
    ensures value { result ≡ flat_of_counted (close_answer (close_check entity_kinds.now entity_ids.now field_ids.now components.now offsets.now len words.now out.old) len) }
    ensures out_after { out.new ≡ close_words (close_check entity_kinds.now entity_ids.now field_ids.now components.now offsets.now len words.now out.old) components.now words.now out.old }
{
    field_region::close_to_field_blocks(
        views::layout(entity_kinds, entity_ids, field_ids, components, offsets),
        views::mask(len, words),
        out,
    )
    .into()
}

// The owner of each block in `out`, which needs one place for each; value: how many. Refuses as the layout, 11, 19, by block 20, 21, then 25.
pub fn hybit_field_block_owners(
    entity_kinds: &[u8],
    entity_ids: &[u64],
    field_ids: &[u32],
    components: &[u32],
    offsets: &[u64],
    dof_owners: &[u32],
    ranks: u32,
    out: &mut [u32],
) -> Answer
    ensures value { result ≡ flat_of_counted (owners_answer (owners_check entity_kinds.now entity_ids.now field_ids.now components.now offsets.now dof_owners.now ranks out.old) components.now) }
    ensures out_after { out.new ≡ owners_list (owners_check entity_kinds.now entity_ids.now field_ids.now components.now offsets.now dof_owners.now ranks out.old) components.now dof_owners.now out.old }
{
    field_region::field_block_owners(
        views::layout(entity_kinds, entity_ids, field_ids, components, offsets),
        dof_owners,
        ranks,
        out,
    )
    .into()
}

// How many regions hold each node, in `counts`, which needs one place for each node. `words`: the masks of the regions one after the other.
// Refuses 1, 11, 12, 25.
pub fn hybit_region_multiplicity(
    node_count: usize,
    region_count: usize,
    words: &[u64],
    counts: &mut [u32],
) -> MultiplicityAnswer
    ensures value { result ≡ flat_of_regions (multiplicity_answer (multiplicity_check node_count region_count words.now counts.old) node_count region_count words.now) }
    ensures counts_after { counts.new ≡ multiplicity_counts (multiplicity_check node_count region_count words.now counts.old) node_count region_count words.now counts.old }
{
    multiplicity::region_multiplicity(
        views::regions(node_count, region_count, words),
        counts,
    ).into()
}

// value: the region's weight at a node, 65,536 divided by the node's multiplicity, rounded down; 0 where it does not hold it. Refuses 1, 11, 12, 13.
pub fn hybit_weight(
    node_count: usize,
    region_count: usize,
    words: &[u64],
    region: u64,
    node: u64,
) -> Answer
    ensures { result ≡ flat_of_counted (weight_answer node_count region_count words.now region node) }
{
    multiplicity::weight(
        views::regions(node_count, region_count, words),
        region,
        node,
    )
    .into()
}
