// The numeric plan of a region, region.rs of the Rust: for each pair of the local pattern its entries in stored order, as they stand in the matrix.
#![tactic(auto)]

ghost use Rattle.std.specs.Prelude.{◌≡◌};
ghost use Rattle.mask.specs.Mask.{in_mask};
ghost use Rattle.side.specs.Views.{holds};
ghost use Rattle.pattern.specs.Pattern.{nodes_left, ptr_left, columns_left};
ghost use Rattle.numeric_plan.specs.Plan.{plan_answer, source_ptr_left, sources_left};
ghost use Rattle.numeric_plan.specs.Views.{lent_lists, check_plan};

use base::Refusal;
use binding::inner::System;
use csr32::Csr32Matrix;
use dual_topology::AbtmDualTopology;
use mask::DofMask;
use pattern::inner::Local;

pub mod inner;

// As in the Rust: whether every pair has one source is told beside the counts, and none of them depends on it.
#[derive(Clone, Copy)]
pub struct AbtmLocalNumericPlanStats {
    pub local_nodes: u32,
    pub local_nnz: u32,
    pub source_terms: u32,
    pub duplicate_source_terms: u32,
    pub direct_source_map: bool,
    pub plan_bytes: u32,
}

// The local pattern of the region, and for each of its pairs the entries of the matrix that it is summed from.
pub fn prepare_local_numeric_plan<'a>(
    topology: AbtmDualTopology<'a>,
    matrix: Csr32Matrix<'a>,
    region: DofMask<'a>,
    global_nodes: &mut [u32],
    local_row_ptr: &mut [u32],
    local_col_idx: &mut [u32],
    source_ptr: &mut [u32],
    source_indices: &mut [u32],
) -> Result<AbtmLocalNumericPlanStats, Refusal>
    ensures value { result ≡ plan_answer (check_plan topology.entry matrix.entry region.entry global_nodes.old local_row_ptr.old local_col_idx.old source_ptr.old source_indices.old) topology.entry.rows.nrows (in_mask region.entry.words.now) (lent_lists topology.entry matrix.entry region.entry) }
    ensures members { global_nodes.new ≡ nodes_left (check_plan topology.entry matrix.entry region.entry global_nodes.old local_row_ptr.old local_col_idx.old source_ptr.old source_indices.old) topology.entry.rows.nrows (in_mask region.entry.words.now) global_nodes.old }
    ensures pointers { local_row_ptr.new ≡ ptr_left (check_plan topology.entry matrix.entry region.entry global_nodes.old local_row_ptr.old local_col_idx.old source_ptr.old source_indices.old) topology.entry.rows.nrows (in_mask region.entry.words.now) (holds topology.entry.rows) local_row_ptr.old }
    ensures columns { local_col_idx.new ≡ columns_left (check_plan topology.entry matrix.entry region.entry global_nodes.old local_row_ptr.old local_col_idx.old source_ptr.old source_indices.old) topology.entry.rows.nrows (in_mask region.entry.words.now) (holds topology.entry.rows) local_col_idx.old }
    ensures starts { source_ptr.new ≡ source_ptr_left (check_plan topology.entry matrix.entry region.entry global_nodes.old local_row_ptr.old local_col_idx.old source_ptr.old source_indices.old) (lent_lists topology.entry matrix.entry region.entry) source_ptr.old }
    ensures sources { source_indices.new ≡ sources_left (check_plan topology.entry matrix.entry region.entry global_nodes.old local_row_ptr.old local_col_idx.old source_ptr.old source_indices.old) (lent_lists topology.entry matrix.entry region.entry) source_indices.old }
{
    let matrix = matrix.accept()?;
    let topology = topology.accept()?;
    inner::check_sides(topology.rows, matrix)?;
    let local = Local::of(topology.rows, region)?;
    inner::prepare(
        System { local, matrix },
        global_nodes,
        local_row_ptr,
        local_col_idx,
        source_ptr,
        source_indices,
    )
}
