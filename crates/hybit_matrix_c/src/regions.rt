// The calls of hybit_matrix::regions, exported.
// Made by tools/exports from crates/hybit_matrix/src: do not edit.
ghost use Rattle.std.specs.Prelude.{◌≡◌};
ghost use Rattle.field_region.specs.Closure.{close_check, close_answer, close_words};
ghost use Rattle.field_region.specs.Owners.{owners_check, owners_answer, owners_list};
ghost use Rattle.multiplicity.specs.Multiplicity.{multiplicity_check, multiplicity_answer, multiplicity_counts, weight_answer};
ghost use Rattle.hybit_matrix.specs.Flat.{flat_of_counted};
ghost use Rattle.hybit_matrix.specs.FlatRegions.{flat_of_regions, grown_of, field_grown_of};

use hybit_matrix::Answer;
use hybit_matrix::regions::{FieldGrowthAnswer, GrowthAnswer, MultiplicityAnswer};

// Region and frontier after `hops` hops, each node a block. Three masks of the side: region, frontier, and scratch, zero afterwards. Refuses as
// the topology, 10, 11, 12 for the seeds, 25.
#[unsafe(no_mangle)]
pub extern "C" fn hybit_grow_undirected_region(
    nrows: usize,
    ncols: usize,
    row_word_ptr: &[u32],
    row_word_indices: &[u32],
    row_masks: &[u64],
    structural_nnz: usize,
    column_nrows: usize,
    column_ncols: usize,
    column_word_ptr: &[u32],
    column_word_indices: &[u32],
    column_masks: &[u64],
    column_structural_nnz: usize,
    len: usize,
    words: &[u64],
    hops: u64,
    region: &mut [u64],
    frontier: &mut [u64],
    scratch: &mut [u64],
) -> GrowthAnswer
    ensures value { result ≡ (grown_of nrows ncols row_word_ptr.now row_word_indices.now row_masks.now structural_nnz column_nrows column_ncols column_word_ptr.now column_word_indices.now column_masks.now column_structural_nnz len words.now hops region.old frontier.old scratch.old).answer }
    ensures inside { region.new ≡ (grown_of nrows ncols row_word_ptr.now row_word_indices.now row_masks.now structural_nnz column_nrows column_ncols column_word_ptr.now column_word_indices.now column_masks.now column_structural_nnz len words.now hops region.old frontier.old scratch.old).region }
    ensures edge { frontier.new ≡ (grown_of nrows ncols row_word_ptr.now row_word_indices.now row_masks.now structural_nnz column_nrows column_ncols column_word_ptr.now column_word_indices.now column_masks.now column_structural_nnz len words.now hops region.old frontier.old scratch.old).frontier }
    ensures spent { scratch.new ≡ (grown_of nrows ncols row_word_ptr.now row_word_indices.now row_masks.now structural_nnz column_nrows column_ncols column_word_ptr.now column_word_indices.now column_masks.now column_structural_nnz len words.now hops region.old frontier.old scratch.old).scratch }
{
    hybit_matrix::regions::hybit_grow_undirected_region(
        nrows,
        ncols,
        row_word_ptr,
        row_word_indices,
        row_masks,
        structural_nnz,
        column_nrows,
        column_ncols,
        column_word_ptr,
        column_word_indices,
        column_masks,
        column_structural_nnz,
        len,
        words,
        hops,
        region,
        frontier,
        scratch,
    )
}

// The same by whole blocks of the layout. Refuses as the topology, the layout, 18, 11, 12 for the seeds, 25.
#[unsafe(no_mangle)]
pub extern "C" fn hybit_grow_field_aware_region(
    nrows: usize,
    ncols: usize,
    row_word_ptr: &[u32],
    row_word_indices: &[u32],
    row_masks: &[u64],
    structural_nnz: usize,
    column_nrows: usize,
    column_ncols: usize,
    column_word_ptr: &[u32],
    column_word_indices: &[u32],
    column_masks: &[u64],
    column_structural_nnz: usize,
    entity_kinds: &[u8],
    entity_ids: &[u64],
    field_ids: &[u32],
    components: &[u32],
    offsets: &[u64],
    len: usize,
    words: &[u64],
    hops: u64,
    region: &mut [u64],
    frontier: &mut [u64],
    scratch: &mut [u64],
) -> FieldGrowthAnswer
    ensures value { result ≡ (field_grown_of nrows ncols row_word_ptr.now row_word_indices.now row_masks.now structural_nnz column_nrows column_ncols column_word_ptr.now column_word_indices.now column_masks.now column_structural_nnz entity_kinds.now entity_ids.now field_ids.now components.now offsets.now len words.now hops region.old frontier.old scratch.old).answer }
    ensures inside { region.new ≡ (field_grown_of nrows ncols row_word_ptr.now row_word_indices.now row_masks.now structural_nnz column_nrows column_ncols column_word_ptr.now column_word_indices.now column_masks.now column_structural_nnz entity_kinds.now entity_ids.now field_ids.now components.now offsets.now len words.now hops region.old frontier.old scratch.old).region }
    ensures edge { frontier.new ≡ (field_grown_of nrows ncols row_word_ptr.now row_word_indices.now row_masks.now structural_nnz column_nrows column_ncols column_word_ptr.now column_word_indices.now column_masks.now column_structural_nnz entity_kinds.now entity_ids.now field_ids.now components.now offsets.now len words.now hops region.old frontier.old scratch.old).frontier }
    ensures spent { scratch.new ≡ (field_grown_of nrows ncols row_word_ptr.now row_word_indices.now row_masks.now structural_nnz column_nrows column_ncols column_word_ptr.now column_word_indices.now column_masks.now column_structural_nnz entity_kinds.now entity_ids.now field_ids.now components.now offsets.now len words.now hops region.old frontier.old scratch.old).scratch }
{
    hybit_matrix::regions::hybit_grow_field_aware_region(
        nrows,
        ncols,
        row_word_ptr,
        row_word_indices,
        row_masks,
        structural_nnz,
        column_nrows,
        column_ncols,
        column_word_ptr,
        column_word_indices,
        column_masks,
        column_structural_nnz,
        entity_kinds,
        entity_ids,
        field_ids,
        components,
        offsets,
        len,
        words,
        hops,
        region,
        frontier,
        scratch,
    )
}

// The whole blocks of the nodes in `out`, a mask of the total; value: the total. Refuses as the layout, 11, 12 for the mask, 25.
#[unsafe(no_mangle)]
pub extern "C" fn hybit_close_to_field_blocks(
    entity_kinds: &[u8],
    entity_ids: &[u64],
    field_ids: &[u32],
    components: &[u32],
    offsets: &[u64],
    len: usize,
    words: &[u64],
    out: &mut [u64],
) -> Answer
    ensures value { result ≡ flat_of_counted (close_answer (close_check entity_kinds.now entity_ids.now field_ids.now components.now offsets.now len words.now out.old) len) }
    ensures out_after { out.new ≡ close_words (close_check entity_kinds.now entity_ids.now field_ids.now components.now offsets.now len words.now out.old) components.now words.now out.old }
{
    hybit_matrix::regions::hybit_close_to_field_blocks(
        entity_kinds,
        entity_ids,
        field_ids,
        components,
        offsets,
        len,
        words,
        out,
    )
}

// The owner of each block in `out`, which needs one place for each; value: how many. Refuses as the layout, 11, 19, by block 20, 21, then 25.
#[unsafe(no_mangle)]
pub extern "C" fn hybit_field_block_owners(
    entity_kinds: &[u8],
    entity_ids: &[u64],
    field_ids: &[u32],
    components: &[u32],
    offsets: &[u64],
    dof_owners: &[u32],
    ranks: u32,
    out: &mut [u32],
) -> Answer
    ensures value { result ≡ flat_of_counted (owners_answer (owners_check entity_kinds.now entity_ids.now field_ids.now components.now offsets.now dof_owners.now ranks out.old) components.now) }
    ensures out_after { out.new ≡ owners_list (owners_check entity_kinds.now entity_ids.now field_ids.now components.now offsets.now dof_owners.now ranks out.old) components.now dof_owners.now out.old }
{
    hybit_matrix::regions::hybit_field_block_owners(
        entity_kinds,
        entity_ids,
        field_ids,
        components,
        offsets,
        dof_owners,
        ranks,
        out,
    )
}

// How many regions hold each node, in `counts`, which needs one place for each node. `words`: the masks of the regions one after the other.
// Refuses 1, 11, 12, 25.
#[unsafe(no_mangle)]
pub extern "C" fn hybit_region_multiplicity(
    node_count: usize,
    region_count: usize,
    words: &[u64],
    counts: &mut [u32],
) -> MultiplicityAnswer
    ensures value { result ≡ flat_of_regions (multiplicity_answer (multiplicity_check node_count region_count words.now counts.old) node_count region_count words.now) }
    ensures counts_after { counts.new ≡ multiplicity_counts (multiplicity_check node_count region_count words.now counts.old) node_count region_count words.now counts.old }
{
    hybit_matrix::regions::hybit_region_multiplicity(node_count, region_count, words, counts)
}

// value: the region's weight at a node, 65,536 divided by the node's multiplicity, rounded down; 0 where it does not hold it. Refuses 1, 11, 12, 13.
#[unsafe(no_mangle)]
pub extern "C" fn hybit_weight(
    node_count: usize,
    region_count: usize,
    words: &[u64],
    region: u64,
    node: u64,
) -> Answer
    ensures { result ≡ flat_of_counted (weight_answer node_count region_count words.now region node) }
{
    hybit_matrix::regions::hybit_weight(node_count, region_count, words, region, node)
}
