// The calls on the local system of a region with flat answers: pattern, numeric plan, gather.
ghost use Rattle.std.specs.Prelude.{◌≡◌};
ghost use Rattle.gather.specs.Gather.{gather_check, gather_answer, gather_left};
ghost use Rattle.hybit_matrix.specs.Flat.{flat_of_counted};
ghost use Rattle.hybit_matrix.specs.FlatLocal.{flat_of_pattern, flat_of_plan, pattern_of, plan_of};

use crate::{Answer, refused, views};
use base::Refusal;
use gather::GatherPlan;
use numeric_plan::AbtmLocalNumericPlanStats;
use pattern::AbtmLocalSubmatrixPatternStats;

// The statistics of a pattern, and the two ratios that follow from them; all 0 on a refusal.
#[repr(C)]
#[derive(Clone, Copy, Default)]
pub struct PatternAnswer {
    pub number: u32,
    pub present: bool,
    pub expected: u64,
    pub actual: u64,
    pub global_nodes: u64,
    pub local_nodes: u64,
    pub local_nnz: u64,
    pub topology_words_visited: u64,
    pub candidate_neighbor_bits: u64,
    pub kept_neighbor_bits: u64,
    pub mapping_scratch_bytes: u64,
    pub pattern_bytes: u64,
    pub structural_pruning_ratio: f64,
    pub average_local_row_nnz: f64,
}

// The statistics of a plan; all 0 on a refusal.
#[repr(C)]
#[derive(Clone, Copy, Default)]
pub struct PlanAnswer {
    pub number: u32,
    pub present: bool,
    pub expected: u64,
    pub actual: u64,
    pub local_nodes: u64,
    pub local_nnz: u64,
    pub source_terms: u64,
    pub duplicate_source_terms: u64,
    pub direct_source_map: bool,
    pub plan_bytes: u64,
}

impl From<Result<AbtmLocalSubmatrixPatternStats, Refusal>> for PatternAnswer {
    ghost from_gives = { λ r a. a ≡ flat_of_pattern r };

    #[tactic(auto, unfolding(crate::specs::FlatLocal::flat_of_pattern))]
    fn from(s: Result<AbtmLocalSubmatrixPatternStats, Refusal>) -> Self {
        match s {
            Ok(x) => Self {
                present: true,
                global_nodes: x.global_nodes as u64,
                local_nodes: x.local_nodes as u64,
                local_nnz: x.local_nnz as u64,
                topology_words_visited: x.topology_words_visited as u64,
                candidate_neighbor_bits: x.candidate_neighbor_bits as u64,
                kept_neighbor_bits: x.kept_neighbor_bits as u64,
                mapping_scratch_bytes: x.mapping_scratch_bytes as u64,
                pattern_bytes: x.pattern_bytes as u64,
                structural_pruning_ratio: x.structural_pruning_ratio(),
                average_local_row_nnz: x.average_local_row_nnz(),
                ..Self::default()
            },
            Err(r) => refused!(r),
        }
    }
}

impl From<Result<AbtmLocalNumericPlanStats, Refusal>> for PlanAnswer {
    ghost from_gives = { λ r a. a ≡ flat_of_plan r };

    #[tactic(auto, unfolding(crate::specs::FlatLocal::flat_of_plan))]
    fn from(s: Result<AbtmLocalNumericPlanStats, Refusal>) -> Self {
        match s {
            Ok(x) => Self {
                present: true,
                local_nodes: x.local_nodes as u64,
                local_nnz: x.local_nnz as u64,
                source_terms: x.source_terms as u64,
                duplicate_source_terms: x.duplicate_source_terms as u64,
                direct_source_map: x.direct_source_map,
                plan_bytes: x.plan_bytes as u64,
                ..Self::default()
            },
            Err(r) => refused!(r),
        }
    }
}

// The local system's pattern: members, members + 1 row pointers, and one column for each pair inside. Refuses as the topology, 10, 11, 12 for
// the region, 25.
pub fn hybit_extract_local_submatrix_pattern(
    nrows: usize,
    ncols: usize,
    row_word_ptr: &[u32],
    row_word_indices: &[u32],
    row_masks: &[u64],
    structural_nnz: usize,
    column_nrows: usize,
    column_ncols: usize,
    column_word_ptr: &[u32],
    column_word_indices: &[u32],
    column_masks: &[u64],
    column_structural_nnz: usize,
    len: usize,
    words: &[u64],
    global_nodes: &mut [u32],
    row_ptr: &mut [u32],
    col_idx: &mut [u32],
) -> PatternAnswer
    ensures value { result ≡ (pattern_of nrows ncols row_word_ptr.now row_word_indices.now row_masks.now structural_nnz column_nrows column_ncols column_word_ptr.now column_word_indices.now column_masks.now column_structural_nnz len words.now global_nodes.old row_ptr.old col_idx.old).answer }
    ensures members { global_nodes.new ≡ (pattern_of nrows ncols row_word_ptr.now row_word_indices.now row_masks.now structural_nnz column_nrows column_ncols column_word_ptr.now column_word_indices.now column_masks.now column_structural_nnz len words.now global_nodes.old row_ptr.old col_idx.old).nodes }
    ensures pointers { row_ptr.new ≡ (pattern_of nrows ncols row_word_ptr.now row_word_indices.now row_masks.now structural_nnz column_nrows column_ncols column_word_ptr.now column_word_indices.now column_masks.now column_structural_nnz len words.now global_nodes.old row_ptr.old col_idx.old).ptr }
    ensures columns { col_idx.new ≡ (pattern_of nrows ncols row_word_ptr.now row_word_indices.now row_masks.now structural_nnz column_nrows column_ncols column_word_ptr.now column_word_indices.now column_masks.now column_structural_nnz len words.now global_nodes.old row_ptr.old col_idx.old).columns }
{
    pattern::extract_local_submatrix_pattern(
        views::topology(
            nrows,
            ncols,
            row_word_ptr,
            row_word_indices,
            row_masks,
            structural_nnz,
            column_nrows,
            column_ncols,
            column_word_ptr,
            column_word_indices,
            column_masks,
            column_structural_nnz,
        ),
        views::mask(len, words),
        global_nodes,
        row_ptr,
        col_idx,
    )
    .into()
}

// Pattern and plan: the pattern's lists, pairs + 1 source pointers, and one source for each entry inside. Refuses as the matrix, the topology, 22,
// 10, 11, 12 for the region, by local row 23, 24, then 25.
pub fn hybit_prepare_local_numeric_plan(
    nrows: usize,
    ncols: usize,
    row_word_ptr: &[u32],
    row_word_indices: &[u32],
    row_masks: &[u64],
    structural_nnz: usize,
    column_nrows: usize,
    column_ncols: usize,
    column_word_ptr: &[u32],
    column_word_indices: &[u32],
    column_masks: &[u64],
    column_structural_nnz: usize,
    matrix_nrows: usize,
    matrix_ncols: usize,
    row_ptr: &[u32],
    col_idx: &[u32],
    values: &[f64],
    len: usize,
    words: &[u64],
    global_nodes: &mut [u32],
    local_row_ptr: &mut [u32],
    local_col_idx: &mut [u32],
    source_ptr: &mut [u32],
    source_indices: &mut [u32],
) -> PlanAnswer
    ensures value { result ≡ (plan_of nrows ncols row_word_ptr.now row_word_indices.now row_masks.now structural_nnz column_nrows column_ncols column_word_ptr.now column_word_indices.now column_masks.now column_structural_nnz matrix_nrows matrix_ncols row_ptr.now col_idx.now values.now len words.now global_nodes.old local_row_ptr.old local_col_idx.old source_ptr.old source_indices.old).answer }
    ensures members { global_nodes.new ≡ (plan_of nrows ncols row_word_ptr.now row_word_indices.now row_masks.now structural_nnz column_nrows column_ncols column_word_ptr.now column_word_indices.now column_masks.now column_structural_nnz matrix_nrows matrix_ncols row_ptr.now col_idx.now values.now len words.now global_nodes.old local_row_ptr.old local_col_idx.old source_ptr.old source_indices.old).nodes }
    ensures pointers { local_row_ptr.new ≡ (plan_of nrows ncols row_word_ptr.now row_word_indices.now row_masks.now structural_nnz column_nrows column_ncols column_word_ptr.now column_word_indices.now column_masks.now column_structural_nnz matrix_nrows matrix_ncols row_ptr.now col_idx.now values.now len words.now global_nodes.old local_row_ptr.old local_col_idx.old source_ptr.old source_indices.old).ptr }
    ensures columns { local_col_idx.new ≡ (plan_of nrows ncols row_word_ptr.now row_word_indices.now row_masks.now structural_nnz column_nrows column_ncols column_word_ptr.now column_word_indices.now column_masks.now column_structural_nnz matrix_nrows matrix_ncols row_ptr.now col_idx.now values.now len words.now global_nodes.old local_row_ptr.old local_col_idx.old source_ptr.old source_indices.old).columns }
    ensures starts { source_ptr.new ≡ (plan_of nrows ncols row_word_ptr.now row_word_indices.now row_masks.now structural_nnz column_nrows column_ncols column_word_ptr.now column_word_indices.now column_masks.now column_structural_nnz matrix_nrows matrix_ncols row_ptr.now col_idx.now values.now len words.now global_nodes.old local_row_ptr.old local_col_idx.old source_ptr.old source_indices.old).source_ptr }
    ensures sources { source_indices.new ≡ (plan_of nrows ncols row_word_ptr.now row_word_indices.now row_masks.now structural_nnz column_nrows column_ncols column_word_ptr.now column_word_indices.now column_masks.now column_structural_nnz matrix_nrows matrix_ncols row_ptr.now col_idx.now values.now len words.now global_nodes.old local_row_ptr.old local_col_idx.old source_ptr.old source_indices.old).sources }
{
    numeric_plan::prepare_local_numeric_plan(
        views::topology(
            nrows,
            ncols,
            row_word_ptr,
            row_word_indices,
            row_masks,
            structural_nnz,
            column_nrows,
            column_ncols,
            column_word_ptr,
            column_word_indices,
            column_masks,
            column_structural_nnz,
        ),
        views::matrix(matrix_nrows, matrix_ncols, row_ptr, col_idx, values),
        views::mask(len, words),
        global_nodes,
        local_row_ptr,
        local_col_idx,
        source_ptr,
        source_indices,
    )
    .into()
}

// One value for each pair of a plan in `out`; value: how many. `source_value_len`: the number of values that the plan was made for. Refuses 1,
// 26, 11, 8, 25.
pub fn hybit_gather_values(
    source_ptr: &[u32],
    source_indices: &[u32],
    source_value_len: usize,
    values: &[f64],
    out: &mut [f64],
) -> Answer
    ensures value { result ≡ flat_of_counted (gather_answer (gather_check source_ptr.now source_indices.now source_value_len values.now out.old) source_ptr.now) }
    ensures out_after { out.new ≡ gather_left (gather_check source_ptr.now source_indices.now source_value_len values.now out.old) source_ptr.now source_indices.now values.now out.old }
{
    GatherPlan {
        source_ptr,
        source_indices,
        source_value_len,
    }
    .gather_values(values, out)
    .into()
}
