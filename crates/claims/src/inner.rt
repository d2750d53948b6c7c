// The local system of the region that a list of growths comes to, for callers that have checked: no part of the API.
ghost use Rattle.std.specs.Prelude.{◌≡◌, false, IfOk, IfErr};
ghost use Rattle.base.specs.Checks.{◌then◌, answer};
ghost use Rattle.mask.specs.Mask.{in_mask, mask_words, IsMask};
ghost use Rattle.csr32.specs.Views.{check_matrix, entries, AcceptedFrom as AcceptedMatrix};
ghost use Rattle.side.specs.Views.{pairs, AcceptedFrom as AcceptedSide};
ghost use Rattle.binding.specs.Binding.{binding_check};
ghost use Rattle.binding.specs.Steps.{counts_of};
ghost use Rattle.claims.specs.Run.{with_cut, without_cut, arrays_check, pairs_check, if_grown};
ghost use Rattle.claims.specs.Views.{check_sides, square_of, plan_on, answer_on, values_on};

use crate::{Cut, GrowthRun};
use base::Refusal;
use binding::Counts;
use binding::inner::System;
use csr32::Csr32Matrix;
use csr32::inner::Matrix;
use dual_topology::AbtmDualTopology;
use gather::GatherPlan;
use growths::Ran;
use mask::inner::Mask;
use mask::{DofMask, LARGEST_WORDS};
use pattern::inner::Local;
use side::AbtmTopology;
use side::inner::Side;

// A topology with as many columns as rows on both of its sides.
fn squared<'a>(topology: AbtmDualTopology<'a>) -> AbtmDualTopology<'a>
    ensures { result ≡ square_of topology.entry }
{
    let n = topology.rows.nrows;
    AbtmDualTopology {
        rows: AbtmTopology {
            ncols: n,
            ..topology.rows
        },
        columns: AbtmTopology {
            nrows: n,
            ncols: n,
            ..topology.columns
        },
    }
}

// Pattern, plan and gather on a region, all on one square side, the rows' own: the plan on the lists that the pattern left, the gather on the plan's
// own pointers and sources. Lists that are written are no struct: each contract would say besides that the struct's references stay.
pub fn cut<'a>(
    topology: AbtmDualTopology<'a>,
    matrix: Csr32Matrix<'a>,
    region: DofMask<'a>,
    new_values: &[f64],
    global_nodes: &mut [u32],
    local_row_ptr: &mut [u32],
    local_col_idx: &mut [u32],
    source_ptr: &mut [u32],
    source_indices: &mut [u32],
    out: &mut [f64],
) -> Cut
    ensures value { result ≡ answer_on topology.entry matrix.entry region.entry.len region.entry.words.now global_nodes.old local_row_ptr.old local_col_idx.old source_ptr.old source_indices.old new_values.now out.old }
    ensures members { global_nodes.new ≡ (plan_on topology.entry matrix.entry region.entry.len region.entry.words.now global_nodes.old local_row_ptr.old local_col_idx.old source_ptr.old source_indices.old).nodes }
    ensures pointers { local_row_ptr.new ≡ (plan_on topology.entry matrix.entry region.entry.len region.entry.words.now global_nodes.old local_row_ptr.old local_col_idx.old source_ptr.old source_indices.old).ptr }
    ensures columns { local_col_idx.new ≡ (plan_on topology.entry matrix.entry region.entry.len region.entry.words.now global_nodes.old local_row_ptr.old local_col_idx.old source_ptr.old source_indices.old).columns }
    ensures starts { source_ptr.new ≡ (plan_on topology.entry matrix.entry region.entry.len region.entry.words.now global_nodes.old local_row_ptr.old local_col_idx.old source_ptr.old source_indices.old).source_ptr }
    ensures sources { source_indices.new ≡ (plan_on topology.entry matrix.entry region.entry.len region.entry.words.now global_nodes.old local_row_ptr.old local_col_idx.old source_ptr.old source_indices.old).sources }
    ensures gathered { out.new ≡ values_on topology.entry matrix.entry region.entry.len region.entry.words.now global_nodes.old local_row_ptr.old local_col_idx.old source_ptr.old source_indices.old new_values.now out.old }
{
    let square = squared(topology);
    let extracted = pattern::extract_local_submatrix_pattern(
        square,
        region,
        global_nodes,
        local_row_ptr,
        local_col_idx,
    );
    let plan = numeric_plan::prepare_local_numeric_plan(
        square,
        Csr32Matrix {
            nrows: topology.rows.nrows,
            ncols: topology.rows.nrows,
            ..matrix
        },
        region,
        global_nodes,
        local_row_ptr,
        local_col_idx,
        source_ptr,
        source_indices,
    );
    // By `match`: in a closure of `and_then`, tried, the bounds of both parts are a need of that call, to be shown of every plan that it may be
    // handed, and the check finds neither that nor the answer and what `out` is left with.
    let gathered = match plan {
        Err(r) => Err(r),
        Ok(s) => GatherPlan {
            source_ptr: &source_ptr[..s.local_nnz as usize + 1],
            source_indices: &source_indices[..s.source_terms as usize],
            source_value_len: matrix.col_idx.len(),
        }
        .gather_values(new_values, out),
    };
    Cut {
        pattern: extracted,
        plan,
        gathered,
    }
}

// The local system of the region that a list of growths came to, where one was accepted.
pub fn finish<'a>(
    ran: Ran,
    topology: AbtmDualTopology<'a>,
    matrix: Csr32Matrix<'a>,
    region: DofMask<'a>,
    new_values: &[f64],
    global_nodes: &mut [u32],
    local_row_ptr: &mut [u32],
    local_col_idx: &mut [u32],
    source_ptr: &mut [u32],
    source_indices: &mut [u32],
    out: &mut [f64],
) -> GrowthRun
    ensures value { result ≡ if_grown ran (with_cut ran (answer_on topology.entry matrix.entry region.entry.len region.entry.words.now global_nodes.old local_row_ptr.old local_col_idx.old source_ptr.old source_indices.old new_values.now out.old)) (without_cut ran) }
    ensures members { global_nodes.new ≡ if_grown ran (plan_on topology.entry matrix.entry region.entry.len region.entry.words.now global_nodes.old local_row_ptr.old local_col_idx.old source_ptr.old source_indices.old).nodes global_nodes.old }
    ensures pointers { local_row_ptr.new ≡ if_grown ran (plan_on topology.entry matrix.entry region.entry.len region.entry.words.now global_nodes.old local_row_ptr.old local_col_idx.old source_ptr.old source_indices.old).ptr local_row_ptr.old }
    ensures columns { local_col_idx.new ≡ if_grown ran (plan_on topology.entry matrix.entry region.entry.len region.entry.words.now global_nodes.old local_row_ptr.old local_col_idx.old source_ptr.old source_indices.old).columns local_col_idx.old }
    ensures starts { source_ptr.new ≡ if_grown ran (plan_on topology.entry matrix.entry region.entry.len region.entry.words.now global_nodes.old local_row_ptr.old local_col_idx.old source_ptr.old source_indices.old).source_ptr source_ptr.old }
    ensures sources { source_indices.new ≡ if_grown ran (plan_on topology.entry matrix.entry region.entry.len region.entry.words.now global_nodes.old local_row_ptr.old local_col_idx.old source_ptr.old source_indices.old).sources source_indices.old }
    ensures filled { out.new ≡ if_grown ran (values_on topology.entry matrix.entry region.entry.len region.entry.words.now global_nodes.old local_row_ptr.old local_col_idx.old source_ptr.old source_indices.old new_values.now out.old) out.old }
{
    if ran.accepted == 0 {
        return GrowthRun { ran, cut: None };
    }
    let local = cut(
        topology,
        matrix,
        region,
        new_values,
        global_nodes,
        local_row_ptr,
        local_col_idx,
        source_ptr,
        source_indices,
        out,
    );
    GrowthRun {
        ran,
        cut: Some(local),
    }
}

// The rows of a topology and a matrix that were accepted, of the same nodes.
#[derive(Clone, Copy)]
pub struct Compared<'a> {
    pub rows: Side<'a>,
    pub matrix: Matrix<'a>,
    ghost square: { (rows.ncols ≡ rows.nrows) × (matrix.nrows ≡ rows.nrows) × (matrix.ncols ≡ rows.nrows) },
}

// The matrix, the topology, its sides against the matrix's, its shape.
#[tactic(auto, using(base::proofs::Checks::checks), unfolding(crate::specs::Run::sided_topology, numeric_plan::specs::Plan::sides_check))]
pub fn compare<'a>(
    topology: AbtmDualTopology<'a>,
    matrix: Csr32Matrix<'a>,
) -> Result<Compared<'a>, Refusal>
    ensures refused { IfErr result (λ e. (check_matrix matrix.entry then check_sides topology.entry matrix.entry) ≡ Err e) }
    ensures accepted { IfOk result (λ c. (check_matrix matrix.entry ≡ Ok tt) × (check_sides topology.entry matrix.entry ≡ Ok tt) × AcceptedSide topology.entry.rows c.rows × AcceptedMatrix matrix.entry c.matrix) }
{
    let matrix = matrix.accept()?;
    let rows = topology.accept()?.rows;
    numeric_plan::inner::check_sides(rows, matrix)?;
    if rows.nrows != rows.ncols {
        return Err(Refusal::NotSquare);
    }
    Ok(Compared { rows, matrix })
}

impl<'a> Compared<'a> {
    // Whether topology and matrix have the same pairs in a mask's rows, and what these hold.
    fn bind(self, words: &'a [u64]) -> Result<Counts, Refusal>
        requires { IsMask self.rows.nrows words.now }
        ensures { result ≡ answer (binding_check self.entry.rows.nrows (in_mask words.now) (pairs self.entry.rows) (entries self.entry.matrix)) (counts_of self.entry.rows.nrows (in_mask words.now) (pairs self.entry.rows) self.entry.matrix.row_ptr.now self.entry.matrix.col_idx.now) }
    {
        let region = Mask {
            len: self.rows.nrows,
            words,
        };
        let local = Local {
            rows: self.rows,
            region,
        };
        System {
            local,
            matrix: self.matrix,
        }
        .bind()
    }

    // The same over all rows, by a mask that is filled here.
    fn check_filled(self, all: &mut [u64]) -> Result<(), Refusal>
        requires { all.old ≡ mask_words self.rows.nrows (λ i. false) }
        ensures { result ≡ pairs_check self.entry.rows.nrows (pairs self.entry.rows) (entries self.entry.matrix) }
    {
        let n = self.rows.nrows;
        mask::inner::add_range(n, all, 0, n);
        self.bind(all)?;
        Ok(())
    }

    // The same with a mask of its own, in a fixed array, since nothing is on the heap: as long as the mask of the largest matrix.
    fn check_pairs(self) -> Result<(), Refusal>
        ensures { result ≡ pairs_check self.entry.rows.nrows (pairs self.entry.rows) (entries self.entry.matrix) }
    {
        let mut all: [u64; LARGEST_WORDS] = [0; LARGEST_WORDS];
        let need = mask::inner::words_for(self.rows.nrows);
        self.check_filled(&mut all[..need])
    }

    // The mask, the same pairs in all rows, and one room for each growth.
    pub fn check_lists(self, seeds: DofMask, hops: &[u64], rooms: &[u64]) -> Result<(), Refusal>
        ensures { result ≡ arrays_check self.entry.rows.nrows seeds.entry.len seeds.entry.words.now (pairs self.entry.rows) (entries self.entry.matrix) hops.now rooms.now }
    {
        mask::inner::check_length(self.rows.nrows, seeds.len, seeds.words)?;
        self.check_pairs()?;
        if rooms.len() != hops.len() {
            return Err(Refusal::wrong_length(hops.len(), rooms.len()));
        }
        Ok(())
    }
}
