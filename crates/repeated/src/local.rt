// The pattern of a region, its plan and a gather, each made many times after one check of its inputs: it leaves and answers what one call does.
ghost use Rattle.std.specs.Prelude.{◌≡◌, ◌-◌, ◌≤◌, length};
ghost use Rattle.base.specs.Lists.{over};
ghost use Rattle.mask.specs.Mask.{in_mask};
ghost use Rattle.mask.specs.Views.{nodes};
ghost use Rattle.side.specs.Views.{holds, pairs};
ghost use Rattle.pattern.specs.Pattern.{pattern_answer, nodes_left, ptr_left, columns_left};
ghost use Rattle.pattern.specs.Views.{check_pattern};
ghost use Rattle.numeric_plan.specs.Plan.{plan_answer, source_ptr_left, sources_left};
ghost use Rattle.numeric_plan.specs.Views.{lent_lists, check_plan};
ghost use Rattle.gather.specs.Gather.{gather_check, gather_answer, gather_left, gathered};
ghost use Rattle.repeated.specs.Repeated.{pairs_answer, sources_answer, count_answer};
ghost use Rattle.repeated.specs.Lent.{pattern_of, plan_of};
ghost use Rattle.repeated.specs.Held.{Binds};
ghost use Rattle.repeated.specs.Views.{Words, PatternHeld, SystemHeld, SystemOf, terms_inside};

use crate::{Answer, side_of, views};
use binding::inner::System;
use csr32::Csr32Matrix;
use csr32::inner::Matrix;
use dual_topology::AbtmDualTopology;
use gather::GatherPlan;
use gather::inner::Plan;
use mask::DofMask;
use mask::inner::Mask;
use pattern::inner::Local;

// The pattern `times` more, on lists that hold it: they stay as they are.
fn repeat_pattern(
    local: Local,
    times: u64,
    global_nodes: &mut [u32],
    row_ptr: &mut [u32],
    col_idx: &mut [u32],
)
    requires { PatternHeld local global_nodes.old row_ptr.old col_idx.old }
    ensures members { global_nodes.new ≡ global_nodes.old }
    ensures pointers { row_ptr.new ≡ row_ptr.old }
    ensures columns { col_idx.new ≡ col_idx.old }
{
    for _ in 0..times {
        local.write(global_nodes, row_ptr, col_idx);
    }
}

// A pattern as lent, and `times` more with what its checks gave.
#[tactic(auto, unfolding(crate::specs::Repeated::pairs_answer))]
fn repeated_pattern<'a>(
    topology: AbtmDualTopology<'a>,
    mask: DofMask<'a>,
    times: u64,
    global_nodes: &mut [u32],
    row_ptr: &mut [u32],
    col_idx: &mut [u32],
) -> Answer
    requires { Words topology mask }
    ensures value { result ≡ pairs_answer (pattern_answer (check_pattern topology.entry mask.entry global_nodes.old row_ptr.old col_idx.old) topology.entry.rows.nrows (in_mask mask.entry.words.now) (holds topology.entry.rows)) }
    ensures members { global_nodes.new ≡ nodes_left (check_pattern topology.entry mask.entry global_nodes.old row_ptr.old col_idx.old) topology.entry.rows.nrows (in_mask mask.entry.words.now) global_nodes.old }
    ensures pointers { row_ptr.new ≡ ptr_left (check_pattern topology.entry mask.entry global_nodes.old row_ptr.old col_idx.old) topology.entry.rows.nrows (in_mask mask.entry.words.now) (holds topology.entry.rows) row_ptr.old }
    ensures columns { col_idx.new ≡ columns_left (check_pattern topology.entry mask.entry global_nodes.old row_ptr.old col_idx.old) topology.entry.rows.nrows (in_mask mask.entry.words.now) (holds topology.entry.rows) col_idx.old }
{
    match pattern::extract_local_submatrix_pattern(topology, mask, global_nodes, row_ptr, col_idx) {
        Err(r) => r.into(),
        Ok(s) => {
            let n = topology.rows.nrows;
            let rows = side_of(n, topology.rows);
            let region = Mask {
                len: n,
                words: mask.words,
            };
            let local = Local { rows, region };
            repeat_pattern(local, times, global_nodes, row_ptr, col_idx);
            (s.local_nnz as u64).into()
        }
    }
}

// The value is the count of pairs.
pub fn hybit_repeated_pattern(
    nrows: usize,
    ncols: usize,
    row_word_ptr: &[u32],
    row_word_indices: &[u32],
    row_masks: &[u64],
    structural_nnz: usize,
    column_nrows: usize,
    column_ncols: usize,
    column_word_ptr: &[u32],
    column_word_indices: &[u32],
    column_masks: &[u64],
    column_structural_nnz: usize,
    len: usize,
    words: &[u64],
    times: u64,
    global_nodes: &mut [u32],
    row_ptr: &mut [u32],
    col_idx: &mut [u32],
) -> Answer
    ensures value { result ≡ (pattern_of nrows ncols row_word_ptr.now row_word_indices.now row_masks.now structural_nnz column_nrows column_ncols column_word_ptr.now column_word_indices.now column_masks.now column_structural_nnz len words.now global_nodes.old row_ptr.old col_idx.old).answer }
    ensures members { global_nodes.new ≡ (pattern_of nrows ncols row_word_ptr.now row_word_indices.now row_masks.now structural_nnz column_nrows column_ncols column_word_ptr.now column_word_indices.now column_masks.now column_structural_nnz len words.now global_nodes.old row_ptr.old col_idx.old).nodes }
    ensures pointers { row_ptr.new ≡ (pattern_of nrows ncols row_word_ptr.now row_word_indices.now row_masks.now structural_nnz column_nrows column_ncols column_word_ptr.now column_word_indices.now column_masks.now column_structural_nnz len words.now global_nodes.old row_ptr.old col_idx.old).ptr }
    ensures columns { col_idx.new ≡ (pattern_of nrows ncols row_word_ptr.now row_word_indices.now row_masks.now structural_nnz column_nrows column_ncols column_word_ptr.now column_word_indices.now column_masks.now column_structural_nnz len words.now global_nodes.old row_ptr.old col_idx.old).columns }
{
    repeated_pattern(
        views::topology(
            nrows,
            ncols,
            row_word_ptr,
            row_word_indices,
            row_masks,
            structural_nnz,
            column_nrows,
            column_ncols,
            column_word_ptr,
            column_word_indices,
            column_masks,
            column_structural_nnz,
        ),
        views::mask(len, words),
        times,
        global_nodes,
        row_ptr,
        col_idx,
    )
}

// The plan once more, on lists that hold it: they stay as they are. The count of its sources: a plan that the lists hold is not refused.
fn plan_again(
    system: System,
    nodes: &mut [u32],
    local_ptr: &mut [u32],
    local_cols: &mut [u32],
    source_ptr: &mut [u32],
    sources: &mut [u32],
) -> usize
    requires { SystemHeld system nodes.old local_ptr.old local_cols.old source_ptr.old sources.old }
    ensures value { result ≡ terms_inside system.entry }
    ensures members { nodes.new ≡ nodes.old }
    ensures pointers { local_ptr.new ≡ local_ptr.old }
    ensures columns { local_cols.new ≡ local_cols.old }
    ensures starts { source_ptr.new ≡ source_ptr.old }
    ensures entries { sources.new ≡ sources.old }
{
    numeric_plan::inner::prepare(system, nodes, local_ptr, local_cols, source_ptr, sources)
        .unwrap()
        .source_terms as usize
}

// The plan `times` more, on lists that hold it: they stay as they are. The count of its sources: of the last plan made, so that none is left out.
fn repeat_plan(
    system: System,
    first: usize,
    times: u64,
    nodes: &mut [u32],
    local_ptr: &mut [u32],
    local_cols: &mut [u32],
    source_ptr: &mut [u32],
    sources: &mut [u32],
) -> usize
    requires { SystemHeld system nodes.old local_ptr.old local_cols.old source_ptr.old sources.old × (first ≡ terms_inside system) }
    ensures value { result ≡ first }
    ensures members { nodes.new ≡ nodes.old }
    ensures pointers { local_ptr.new ≡ local_ptr.old }
    ensures columns { local_cols.new ≡ local_cols.old }
    ensures starts { source_ptr.new ≡ source_ptr.old }
    ensures entries { sources.new ≡ sources.old }
{
    let mut terms = first;
    for _ in 0..times {
        terms = plan_again(system, nodes, local_ptr, local_cols, source_ptr, sources);
    }
    terms
}

// The system of a topology, a matrix and a region that a call has accepted.
fn system_of<'a>(
    topology: AbtmDualTopology<'a>,
    matrix: Csr32Matrix<'a>,
    mask: DofMask<'a>,
) -> System<'a>
    requires { Binds topology.rows.nrows topology.rows.row_word_ptr.now topology.rows.word_indices.now topology.rows.masks.now matrix.row_ptr.now matrix.col_idx.now mask.words.now }
    ensures { SystemOf topology.entry matrix.entry mask.entry result }
{
    let n = topology.rows.nrows;
    let rows = side_of(n, topology.rows);
    let region = Mask {
        len: n,
        words: mask.words,
    };
    let local = Local { rows, region };
    let accepted = Matrix {
        nrows: n,
        ncols: n,
        row_ptr: matrix.row_ptr,
        col_idx: matrix.col_idx,
    };
    System {
        local,
        matrix: accepted,
    }
}

// A plan as lent, and `times` more with what its checks gave.
#[tactic(auto, unfolding(crate::specs::Repeated::sources_answer))]
fn repeated_plan<'a>(
    topology: AbtmDualTopology<'a>,
    matrix: Csr32Matrix<'a>,
    mask: DofMask<'a>,
    times: u64,
    global_nodes: &mut [u32],
    local_row_ptr: &mut [u32],
    local_col_idx: &mut [u32],
    source_ptr: &mut [u32],
    source_indices: &mut [u32],
) -> Answer
    requires { Words topology mask }
    ensures value { result ≡ sources_answer (plan_answer (check_plan topology.entry matrix.entry mask.entry global_nodes.old local_row_ptr.old local_col_idx.old source_ptr.old source_indices.old) topology.entry.rows.nrows (in_mask mask.entry.words.now) (lent_lists topology.entry matrix.entry mask.entry)) }
    ensures members { global_nodes.new ≡ nodes_left (check_plan topology.entry matrix.entry mask.entry global_nodes.old local_row_ptr.old local_col_idx.old source_ptr.old source_indices.old) topology.entry.rows.nrows (in_mask mask.entry.words.now) global_nodes.old }
    ensures pointers { local_row_ptr.new ≡ ptr_left (check_plan topology.entry matrix.entry mask.entry global_nodes.old local_row_ptr.old local_col_idx.old source_ptr.old source_indices.old) topology.entry.rows.nrows (in_mask mask.entry.words.now) (holds topology.entry.rows) local_row_ptr.old }
    ensures columns { local_col_idx.new ≡ columns_left (check_plan topology.entry matrix.entry mask.entry global_nodes.old local_row_ptr.old local_col_idx.old source_ptr.old source_indices.old) topology.entry.rows.nrows (in_mask mask.entry.words.now) (holds topology.entry.rows) local_col_idx.old }
    ensures starts { source_ptr.new ≡ source_ptr_left (check_plan topology.entry matrix.entry mask.entry global_nodes.old local_row_ptr.old local_col_idx.old source_ptr.old source_indices.old) (lent_lists topology.entry matrix.entry mask.entry) source_ptr.old }
    ensures sources { source_indices.new ≡ sources_left (check_plan topology.entry matrix.entry mask.entry global_nodes.old local_row_ptr.old local_col_idx.old source_ptr.old source_indices.old) (lent_lists topology.entry matrix.entry mask.entry) source_indices.old }
{
    match numeric_plan::prepare_local_numeric_plan(
        topology,
        matrix,
        mask,
        global_nodes,
        local_row_ptr,
        local_col_idx,
        source_ptr,
        source_indices,
    ) {
        Err(r) => r.into(),
        Ok(s) => {
            let terms = repeat_plan(
                system_of(topology, matrix, mask),
                s.source_terms as usize,
                times,
                global_nodes,
                local_row_ptr,
                local_col_idx,
                source_ptr,
                source_indices,
            );
            (terms as u64).into()
        }
    }
}

// The value is the count of sources.
pub fn hybit_repeated_plan(
    nrows: usize,
    ncols: usize,
    row_word_ptr: &[u32],
    row_word_indices: &[u32],
    row_masks: &[u64],
    structural_nnz: usize,
    column_nrows: usize,
    column_ncols: usize,
    column_word_ptr: &[u32],
    column_word_indices: &[u32],
    column_masks: &[u64],
    column_structural_nnz: usize,
    matrix_nrows: usize,
    matrix_ncols: usize,
    row_ptr: &[u32],
    col_idx: &[u32],
    values: &[f64],
    len: usize,
    words: &[u64],
    times: u64,
    global_nodes: &mut [u32],
    local_row_ptr: &mut [u32],
    local_col_idx: &mut [u32],
    source_ptr: &mut [u32],
    source_indices: &mut [u32],
) -> Answer
    ensures value { result ≡ (plan_of nrows ncols row_word_ptr.now row_word_indices.now row_masks.now structural_nnz column_nrows column_ncols column_word_ptr.now column_word_indices.now column_masks.now column_structural_nnz matrix_nrows matrix_ncols row_ptr.now col_idx.now values.now len words.now global_nodes.old local_row_ptr.old local_col_idx.old source_ptr.old source_indices.old).answer }
    ensures members { global_nodes.new ≡ (plan_of nrows ncols row_word_ptr.now row_word_indices.now row_masks.now structural_nnz column_nrows column_ncols column_word_ptr.now column_word_indices.now column_masks.now column_structural_nnz matrix_nrows matrix_ncols row_ptr.now col_idx.now values.now len words.now global_nodes.old local_row_ptr.old local_col_idx.old source_ptr.old source_indices.old).nodes }
    ensures pointers { local_row_ptr.new ≡ (plan_of nrows ncols row_word_ptr.now row_word_indices.now row_masks.now structural_nnz column_nrows column_ncols column_word_ptr.now column_word_indices.now column_masks.now column_structural_nnz matrix_nrows matrix_ncols row_ptr.now col_idx.now values.now len words.now global_nodes.old local_row_ptr.old local_col_idx.old source_ptr.old source_indices.old).ptr }
    ensures columns { local_col_idx.new ≡ (plan_of nrows ncols row_word_ptr.now row_word_indices.now row_masks.now structural_nnz column_nrows column_ncols column_word_ptr.now column_word_indices.now column_masks.now column_structural_nnz matrix_nrows matrix_ncols row_ptr.now col_idx.now values.now len words.now global_nodes.old local_row_ptr.old local_col_idx.old source_ptr.old source_indices.old).columns }
    ensures starts { source_ptr.new ≡ (plan_of nrows ncols row_word_ptr.now row_word_indices.now row_masks.now structural_nnz column_nrows column_ncols column_word_ptr.now column_word_indices.now column_masks.now column_structural_nnz matrix_nrows matrix_ncols row_ptr.now col_idx.now values.now len words.now global_nodes.old local_row_ptr.old local_col_idx.old source_ptr.old source_indices.old).source_ptr }
    ensures sources { source_indices.new ≡ (plan_of nrows ncols row_word_ptr.now row_word_indices.now row_masks.now structural_nnz column_nrows column_ncols column_word_ptr.now column_word_indices.now column_masks.now column_structural_nnz matrix_nrows matrix_ncols row_ptr.now col_idx.now values.now len words.now global_nodes.old local_row_ptr.old local_col_idx.old source_ptr.old source_indices.old).sources }
{
    repeated_plan(
        views::topology(
            nrows,
            ncols,
            row_word_ptr,
            row_word_indices,
            row_masks,
            structural_nnz,
            column_nrows,
            column_ncols,
            column_word_ptr,
            column_word_indices,
            column_masks,
            column_structural_nnz,
        ),
        views::matrix(matrix_nrows, matrix_ncols, row_ptr, col_idx, values),
        views::mask(len, words),
        times,
        global_nodes,
        local_row_ptr,
        local_col_idx,
        source_ptr,
        source_indices,
    )
}

// The gather `times` more, on a list that holds it: it stays as it is.
fn repeat_gather(plan: Plan, times: u64, out: &mut [f64])
    requires { (length plan.ptr.now - 1 ≤ length out.old) × (over (gathered plan.ptr.now plan.sources.now plan.values.now) out.old ≡ out.old) }
    ensures { out.new ≡ out.old }
{
    for _ in 0..times {
        plan.gather(out);
    }
}

// The value is the count of pairs.
#[tactic(auto, unfolding(crate::specs::Repeated::count_answer))]
pub fn hybit_repeated_gather(
    source_ptr: &[u32],
    source_indices: &[u32],
    source_value_len: usize,
    values: &[f64],
    times: u64,
    out: &mut [f64],
) -> Answer
    ensures value { result ≡ count_answer (gather_answer (gather_check source_ptr.now source_indices.now source_value_len values.now out.old) source_ptr.now) }
    ensures out_after { out.new ≡ gather_left (gather_check source_ptr.now source_indices.now source_value_len values.now out.old) source_ptr.now source_indices.now values.now out.old }
{
    let plan = GatherPlan {
        source_ptr,
        source_indices,
        source_value_len,
    };
    match plan.gather_values(values, out) {
        Err(r) => r.into(),
        Ok(pairs) => {
            let accepted = Plan {
                ptr: source_ptr,
                sources: source_indices,
                values,
            };
            repeat_gather(accepted, times, out);
            pairs.into()
        }
    }
}
