// A prepared region, its block owners and the job program with flat answers.
ghost use Rattle.std.specs.Prelude.{◌≡◌, Ok};
ghost use Rattle.csr32.specs.Matrix.{matrix_check};
ghost use Rattle.dof_layout.specs.Answers.{square_check};
ghost use Rattle.field_region.specs.Owners.{owners_check, owners_answer, owners_list};
ghost use Rattle.prepared_field_region.specs.Prepared.{block_owners_check};
ghost use Rattle.job_text.specs.Answer.{text_answer, text_left};
ghost use Rattle.peak_job.specs.Answer.{answer_text};
ghost use Rattle.hybit_matrix.specs.Flat.{flat_of_counted};
ghost use Rattle.hybit_matrix.specs.FlatPrepared.{flat_of_prepared, prepared_region};

use crate::{Answer, Flat, refused, views};
use base::Refusal;
use prepared_field_region::PreparedFieldAwareLocalRegion;

// The counts of the topology, then the statistics of topology, growth, pattern and plan; a name that two of them have is told apart by a prefix. All
// 0 and false on a refusal.
#[repr(C)]
#[derive(Clone, Copy, Default)]
pub struct PreparedAnswer {
    pub number: u32,
    pub present: bool,
    pub expected: u64,
    pub actual: u64,
    pub row_words: u64,
    pub column_words: u64,
    pub pairs: u64,
    pub topology_nrows: u32,
    pub topology_ncols: u32,
    pub structural_nnz: u32,
    pub row_metadata_bytes: u32,
    pub column_metadata_bytes: u32,
    pub hops_requested: u64,
    pub hops_completed: u64,
    pub seed_dofs: u64,
    pub block_closed_seed_dofs: u64,
    pub region_dofs: u64,
    pub region_blocks: u64,
    pub frontier_dofs_visited: u64,
    pub row_words_visited: u64,
    pub column_words_visited: u64,
    pub candidate_neighbor_bits: u64,
    pub global_nodes: u32,
    pub local_nodes: u32,
    pub local_nnz: u32,
    pub topology_words_visited: u32,
    pub pattern_candidate_bits: u32,
    pub kept_neighbor_bits: u32,
    pub mapping_scratch_bytes: u32,
    pub pattern_bytes: u32,
    pub plan_local_nodes: u32,
    pub plan_local_nnz: u32,
    pub source_terms: u32,
    pub duplicate_source_terms: u32,
    pub direct_source_map: bool,
    pub plan_bytes: u32,
}

// By `Flat`, where the other records of statistics have `From` alone: with so many fields that one function would have more than 40 lines.
impl Flat<PreparedAnswer> for PreparedFieldAwareLocalRegion {
    ghost flat_record = { λ x. flat_of_prepared (Ok x) };

    #[tactic(auto, unfolding(crate::specs::FlatPrepared::flat_of_prepared))]
    fn flat(self) -> PreparedAnswer {
        PreparedAnswer {
            present: true,
            row_words: self.counts.row_words,
            column_words: self.counts.column_words,
            pairs: self.counts.pairs,
            topology_nrows: self.topology.nrows,
            topology_ncols: self.topology.ncols,
            structural_nnz: self.topology.structural_nnz,
            row_metadata_bytes: self.topology.row_metadata_bytes,
            column_metadata_bytes: self.topology.column_metadata_bytes,
            hops_requested: self.growth.hops_requested,
            hops_completed: self.growth.hops_completed,
            seed_dofs: self.growth.seed_dofs,
            block_closed_seed_dofs: self.growth.block_closed_seed_dofs,
            region_dofs: self.growth.region_dofs,
            region_blocks: self.growth.region_blocks,
            frontier_dofs_visited: self.growth.frontier_dofs_visited,
            row_words_visited: self.growth.row_words_visited,
            column_words_visited: self.growth.column_words_visited,
            candidate_neighbor_bits: self.growth.candidate_neighbor_bits,
            global_nodes: self.pattern.global_nodes,
            local_nodes: self.pattern.local_nodes,
            local_nnz: self.pattern.local_nnz,
            topology_words_visited: self.pattern.topology_words_visited,
            pattern_candidate_bits: self.pattern.candidate_neighbor_bits,
            kept_neighbor_bits: self.pattern.kept_neighbor_bits,
            mapping_scratch_bytes: self.pattern.mapping_scratch_bytes,
            pattern_bytes: self.pattern.pattern_bytes,
            plan_local_nodes: self.numeric_plan.local_nodes,
            plan_local_nnz: self.numeric_plan.local_nnz,
            source_terms: self.numeric_plan.source_terms,
            duplicate_source_terms: self.numeric_plan.duplicate_source_terms,
            direct_source_map: self.numeric_plan.direct_source_map,
            plan_bytes: self.numeric_plan.plan_bytes,
            ..PreparedAnswer::default()
        }
    }
}

impl From<Result<PreparedFieldAwareLocalRegion, Refusal>> for PreparedAnswer {
    ghost from_gives = { λ r a. a ≡ flat_of_prepared r };

    #[tactic(auto, unfolding(crate::specs::FlatPrepared::flat_of_prepared))]
    fn from(s: Result<PreparedFieldAwareLocalRegion, Refusal>) -> Self {
        match s {
            Ok(x) => x.flat(),
            Err(r) => refused!(r),
        }
    }
}

// Topology, region, pattern and plan of a matrix, a layout and seeds in one call. Each side's pointers and words, `starts` and `order` as in
// building; three masks; side members, side + 1 row pointers, as many columns and sources as entries, entries + 1 source pointers, zero past
// the answer. Refuses as the matrix, the layout, 18, 11, 12 for the seeds, 25.
pub fn hybit_prepare_region(
    nrows: usize,
    ncols: usize,
    row_ptr: &[u32],
    col_idx: &[u32],
    values: &[f64],
    entity_kinds: &[u8],
    entity_ids: &[u64],
    field_ids: &[u32],
    components: &[u32],
    offsets: &[u64],
    len: usize,
    words: &[u64],
    hops: u64,
    row_word_ptr: &mut [u32],
    row_word_indices: &mut [u32],
    row_masks: &mut [u64],
    column_word_ptr: &mut [u32],
    column_word_indices: &mut [u32],
    column_masks: &mut [u64],
    starts: &mut [u32],
    order: &mut [u32],
    region: &mut [u64],
    frontier: &mut [u64],
    scratch: &mut [u64],
    global_nodes: &mut [u32],
    local_row_ptr: &mut [u32],
    local_col_idx: &mut [u32],
    source_ptr: &mut [u32],
    source_indices: &mut [u32],
) -> PreparedAnswer
    ensures value { result ≡ (prepared_region nrows ncols row_ptr.now col_idx.now values.now entity_kinds.now entity_ids.now field_ids.now components.now offsets.now len words.now hops row_word_ptr.old row_word_indices.old row_masks.old column_word_ptr.old column_word_indices.old column_masks.old starts.old order.old region.old frontier.old scratch.old global_nodes.old local_row_ptr.old local_col_idx.old source_ptr.old source_indices.old).answer }
    ensures row_pointers { row_word_ptr.new ≡ (prepared_region nrows ncols row_ptr.now col_idx.now values.now entity_kinds.now entity_ids.now field_ids.now components.now offsets.now len words.now hops row_word_ptr.old row_word_indices.old row_masks.old column_word_ptr.old column_word_indices.old column_masks.old starts.old order.old region.old frontier.old scratch.old global_nodes.old local_row_ptr.old local_col_idx.old source_ptr.old source_indices.old).row_word_ptr }
    ensures row_words { row_word_indices.new ≡ (prepared_region nrows ncols row_ptr.now col_idx.now values.now entity_kinds.now entity_ids.now field_ids.now components.now offsets.now len words.now hops row_word_ptr.old row_word_indices.old row_masks.old column_word_ptr.old column_word_indices.old column_masks.old starts.old order.old region.old frontier.old scratch.old global_nodes.old local_row_ptr.old local_col_idx.old source_ptr.old source_indices.old).row_word_indices }
    ensures row_masked { row_masks.new ≡ (prepared_region nrows ncols row_ptr.now col_idx.now values.now entity_kinds.now entity_ids.now field_ids.now components.now offsets.now len words.now hops row_word_ptr.old row_word_indices.old row_masks.old column_word_ptr.old column_word_indices.old column_masks.old starts.old order.old region.old frontier.old scratch.old global_nodes.old local_row_ptr.old local_col_idx.old source_ptr.old source_indices.old).row_masks }
    ensures column_pointers { column_word_ptr.new ≡ (prepared_region nrows ncols row_ptr.now col_idx.now values.now entity_kinds.now entity_ids.now field_ids.now components.now offsets.now len words.now hops row_word_ptr.old row_word_indices.old row_masks.old column_word_ptr.old column_word_indices.old column_masks.old starts.old order.old region.old frontier.old scratch.old global_nodes.old local_row_ptr.old local_col_idx.old source_ptr.old source_indices.old).column_word_ptr }
    ensures column_words { column_word_indices.new ≡ (prepared_region nrows ncols row_ptr.now col_idx.now values.now entity_kinds.now entity_ids.now field_ids.now components.now offsets.now len words.now hops row_word_ptr.old row_word_indices.old row_masks.old column_word_ptr.old column_word_indices.old column_masks.old starts.old order.old region.old frontier.old scratch.old global_nodes.old local_row_ptr.old local_col_idx.old source_ptr.old source_indices.old).column_word_indices }
    ensures column_masked { column_masks.new ≡ (prepared_region nrows ncols row_ptr.now col_idx.now values.now entity_kinds.now entity_ids.now field_ids.now components.now offsets.now len words.now hops row_word_ptr.old row_word_indices.old row_masks.old column_word_ptr.old column_word_indices.old column_masks.old starts.old order.old region.old frontier.old scratch.old global_nodes.old local_row_ptr.old local_col_idx.old source_ptr.old source_indices.old).column_masks }
    ensures scratch_starts { starts.new ≡ (prepared_region nrows ncols row_ptr.now col_idx.now values.now entity_kinds.now entity_ids.now field_ids.now components.now offsets.now len words.now hops row_word_ptr.old row_word_indices.old row_masks.old column_word_ptr.old column_word_indices.old column_masks.old starts.old order.old region.old frontier.old scratch.old global_nodes.old local_row_ptr.old local_col_idx.old source_ptr.old source_indices.old).starts }
    ensures scratch_order { order.new ≡ (prepared_region nrows ncols row_ptr.now col_idx.now values.now entity_kinds.now entity_ids.now field_ids.now components.now offsets.now len words.now hops row_word_ptr.old row_word_indices.old row_masks.old column_word_ptr.old column_word_indices.old column_masks.old starts.old order.old region.old frontier.old scratch.old global_nodes.old local_row_ptr.old local_col_idx.old source_ptr.old source_indices.old).order }
    ensures inside { region.new ≡ (prepared_region nrows ncols row_ptr.now col_idx.now values.now entity_kinds.now entity_ids.now field_ids.now components.now offsets.now len words.now hops row_word_ptr.old row_word_indices.old row_masks.old column_word_ptr.old column_word_indices.old column_masks.old starts.old order.old region.old frontier.old scratch.old global_nodes.old local_row_ptr.old local_col_idx.old source_ptr.old source_indices.old).region }
    ensures edge { frontier.new ≡ (prepared_region nrows ncols row_ptr.now col_idx.now values.now entity_kinds.now entity_ids.now field_ids.now components.now offsets.now len words.now hops row_word_ptr.old row_word_indices.old row_masks.old column_word_ptr.old column_word_indices.old column_masks.old starts.old order.old region.old frontier.old scratch.old global_nodes.old local_row_ptr.old local_col_idx.old source_ptr.old source_indices.old).frontier }
    ensures spent { scratch.new ≡ (prepared_region nrows ncols row_ptr.now col_idx.now values.now entity_kinds.now entity_ids.now field_ids.now components.now offsets.now len words.now hops row_word_ptr.old row_word_indices.old row_masks.old column_word_ptr.old column_word_indices.old column_masks.old starts.old order.old region.old frontier.old scratch.old global_nodes.old local_row_ptr.old local_col_idx.old source_ptr.old source_indices.old).scratch }
    ensures members { global_nodes.new ≡ (prepared_region nrows ncols row_ptr.now col_idx.now values.now entity_kinds.now entity_ids.now field_ids.now components.now offsets.now len words.now hops row_word_ptr.old row_word_indices.old row_masks.old column_word_ptr.old column_word_indices.old column_masks.old starts.old order.old region.old frontier.old scratch.old global_nodes.old local_row_ptr.old local_col_idx.old source_ptr.old source_indices.old).global_nodes }
    ensures pointers { local_row_ptr.new ≡ (prepared_region nrows ncols row_ptr.now col_idx.now values.now entity_kinds.now entity_ids.now field_ids.now components.now offsets.now len words.now hops row_word_ptr.old row_word_indices.old row_masks.old column_word_ptr.old column_word_indices.old column_masks.old starts.old order.old region.old frontier.old scratch.old global_nodes.old local_row_ptr.old local_col_idx.old source_ptr.old source_indices.old).local_row_ptr }
    ensures columns { local_col_idx.new ≡ (prepared_region nrows ncols row_ptr.now col_idx.now values.now entity_kinds.now entity_ids.now field_ids.now components.now offsets.now len words.now hops row_word_ptr.old row_word_indices.old row_masks.old column_word_ptr.old column_word_indices.old column_masks.old starts.old order.old region.old frontier.old scratch.old global_nodes.old local_row_ptr.old local_col_idx.old source_ptr.old source_indices.old).local_col_idx }
    ensures source_pointers { source_ptr.new ≡ (prepared_region nrows ncols row_ptr.now col_idx.now values.now entity_kinds.now entity_ids.now field_ids.now components.now offsets.now len words.now hops row_word_ptr.old row_word_indices.old row_masks.old column_word_ptr.old column_word_indices.old column_masks.old starts.old order.old region.old frontier.old scratch.old global_nodes.old local_row_ptr.old local_col_idx.old source_ptr.old source_indices.old).source_ptr }
    ensures sources { source_indices.new ≡ (prepared_region nrows ncols row_ptr.now col_idx.now values.now entity_kinds.now entity_ids.now field_ids.now components.now offsets.now len words.now hops row_word_ptr.old row_word_indices.old row_masks.old column_word_ptr.old column_word_indices.old column_masks.old starts.old order.old region.old frontier.old scratch.old global_nodes.old local_row_ptr.old local_col_idx.old source_ptr.old source_indices.old).source_indices }
{
    prepared_field_region::prepare_region(
        views::matrix(nrows, ncols, row_ptr, col_idx, values),
        views::layout(entity_kinds, entity_ids, field_ids, components, offsets),
        views::mask(len, words),
        hops,
        row_word_ptr,
        row_word_indices,
        row_masks,
        column_word_ptr,
        column_word_indices,
        column_masks,
        starts,
        order,
        region,
        frontier,
        scratch,
        global_nodes,
        local_row_ptr,
        local_col_idx,
        source_ptr,
        source_indices,
    )
    .into()
}

// As field_block_owners, on a matrix and its layout. Refuses as the matrix, the layout, 18, then as field_block_owners.
pub fn hybit_validate_block_owners(
    nrows: usize,
    ncols: usize,
    row_ptr: &[u32],
    col_idx: &[u32],
    values: &[f64],
    entity_kinds: &[u8],
    entity_ids: &[u64],
    field_ids: &[u32],
    components: &[u32],
    offsets: &[u64],
    dof_owners: &[u32],
    ranks: u32,
    out: &mut [u32],
) -> Answer
    ensures value { result ≡ flat_of_counted (owners_answer (block_owners_check (matrix_check nrows ncols row_ptr.now col_idx.now values.now) (square_check entity_kinds.now entity_ids.now field_ids.now components.now offsets.now nrows ncols) (owners_check entity_kinds.now entity_ids.now field_ids.now components.now offsets.now dof_owners.now ranks out.old)) components.now) }
    ensures owned { out.new ≡ owners_list (block_owners_check (matrix_check nrows ncols row_ptr.now col_idx.now values.now) (square_check entity_kinds.now entity_ids.now field_ids.now components.now offsets.now nrows ncols) (owners_check entity_kinds.now entity_ids.now field_ids.now components.now offsets.now dof_owners.now ranks out.old)) components.now dof_owners.now out.old }
{
    prepared_field_region::validate_block_owners(
        views::matrix(nrows, ncols, row_ptr, col_idx, values),
        views::layout(entity_kinds, entity_ids, field_ids, components, offsets),
        dof_owners,
        ranks,
        out,
    )
    .into()
}

// A job's text in, the answer's text out, a refused job's too; value: its length in bytes. Refuses 25 alone.
pub fn hybit_peak_job(input: &[u8], out: &mut [u8]) -> Answer
    ensures value { result ≡ flat_of_counted (text_answer (answer_text input.now) out.old) }
    ensures out_after { out.new ≡ text_left (answer_text input.now) out.old }
{
    peak_job::run(input, out).into()
}
