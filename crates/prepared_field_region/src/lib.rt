// A region prepared from a matrix, a layout and seeds, prepared_field_region.rs of the Rust: the topology is built, the region grown, its pattern and
// its numeric plan made, after one check. What the Rust keeps in a `PreparedFieldAwareTopology` are plain arguments here.
#![tactic(auto, using(dof_layout::proofs::Layouts::views))]

ghost use Rattle.std.specs.Prelude.{◌≡◌, ◌+◌, length};
ghost use Rattle.csr32.specs.Views.{stores};
ghost use Rattle.dof_layout.specs.Views.{total};
ghost use Rattle.side.specs.Side.{flip};
ghost use Rattle.side.specs.Built.{built_ptr, built_words, built_masks};
ghost use Rattle.dual_topology.specs.Answers.{scratch as zeros};
ghost use Rattle.growth.specs.Lent.{region_left, frontier_left, scratch_left};
ghost use Rattle.field_region.specs.Owners.{owners_answer, owners_list};
ghost use Rattle.prepared_field_region.specs.Prepared.{prepare_answer, prepared_nodes, prepared_ptr, prepared_columns, prepared_source_ptr, prepared_sources};
ghost use Rattle.prepared_field_region.specs.Views.{check_prepare, check_block_owners, network, grown, lists, prepared};

use base::Refusal;
use csr32::Csr32Matrix;
use dof_layout::FieldAwareDofLayout;
use dual_topology::{AbtmDualTopologyStats, TopologyCounts};
use field_region::FieldAwareRegionStats;
use inner::Inputs;
use mask::DofMask;
use numeric_plan::AbtmLocalNumericPlanStats;
use numeric_plan::inner::PlanRoom;
use pattern::AbtmLocalSubmatrixPatternStats;
use pattern::inner::Room;

pub mod inner;

// What is known of a prepared region beside its lists: the counts of the topology's words and pairs, and the statistics of each step.
#[derive(Clone, Copy)]
pub struct PreparedFieldAwareLocalRegion {
    pub counts: TopologyCounts,
    pub topology: AbtmDualTopologyStats,
    pub growth: FieldAwareRegionStats,
    pub pattern: AbtmLocalSubmatrixPatternStats,
    pub numeric_plan: AbtmLocalNumericPlanStats,
}

// The Rust's functions of these names.
impl PreparedFieldAwareLocalRegion {
    pub fn topology_stats(self) -> AbtmDualTopologyStats
        ensures { result ≡ self.topology }
    {
        self.topology
    }

    pub fn growth_stats(self) -> FieldAwareRegionStats
        ensures { result ≡ self.growth }
    {
        self.growth
    }

    pub fn pattern_stats(self) -> AbtmLocalSubmatrixPatternStats
        ensures { result ≡ self.pattern }
    {
        self.pattern
    }

    pub fn numeric_plan_stats(self) -> AbtmLocalNumericPlanStats
        ensures { result ≡ self.numeric_plan }
    {
        self.numeric_plan
    }
}

// The topology's eight lists are lent as to `from_csr32`, the three masks as to a growth; the last five take side members, side + 1 pointers, a
// column and a source for each entry, and a source pointer for each entry and one. The lists that are written are handed in one by one, here and in
// `inner`, each with its equation: in a struct behind `&mut` each contract would say besides that the references stay. So each of the two calls
// hands on its lines, and each clause names the check with all lists: told by `result` in the place of the check, each caller would have to go back
// from the result to the check.
pub fn prepare_region<'a>(
    matrix: Csr32Matrix<'a>,
    layout: FieldAwareDofLayout<'a>,
    seeds: DofMask<'a>,
    hops: u64,
    row_word_ptr: &mut [u32],
    row_word_indices: &mut [u32],
    row_masks: &mut [u64],
    column_word_ptr: &mut [u32],
    column_word_indices: &mut [u32],
    column_masks: &mut [u64],
    starts: &mut [u32],
    order: &mut [u32],
    region: &mut [u64],
    frontier: &mut [u64],
    scratch: &mut [u64],
    global_nodes: &mut [u32],
    local_row_ptr: &mut [u32],
    local_col_idx: &mut [u32],
    source_ptr: &mut [u32],
    source_indices: &mut [u32],
) -> Result<PreparedFieldAwareLocalRegion, Refusal>
    ensures value { result ≡ prepare_answer (check_prepare matrix.entry layout.entry seeds.entry row_word_ptr.old row_word_indices.old row_masks.old column_word_ptr.old column_word_indices.old column_masks.old starts.old order.old region.old frontier.old scratch.old global_nodes.old local_row_ptr.old local_col_idx.old source_ptr.old source_indices.old) (prepared matrix.entry layout.entry seeds.entry hops) }
    ensures row_pointers { row_word_ptr.new ≡ built_ptr (check_prepare matrix.entry layout.entry seeds.entry row_word_ptr.old row_word_indices.old row_masks.old column_word_ptr.old column_word_indices.old column_masks.old starts.old order.old region.old frontier.old scratch.old global_nodes.old local_row_ptr.old local_col_idx.old source_ptr.old source_indices.old) matrix.entry.nrows matrix.entry.ncols (stores matrix.entry) row_word_ptr.old }
    ensures row_words { row_word_indices.new ≡ built_words (check_prepare matrix.entry layout.entry seeds.entry row_word_ptr.old row_word_indices.old row_masks.old column_word_ptr.old column_word_indices.old column_masks.old starts.old order.old region.old frontier.old scratch.old global_nodes.old local_row_ptr.old local_col_idx.old source_ptr.old source_indices.old) matrix.entry.nrows matrix.entry.ncols (stores matrix.entry) (length matrix.entry.col_idx.now) row_word_indices.old }
    ensures row_masked { row_masks.new ≡ built_masks (check_prepare matrix.entry layout.entry seeds.entry row_word_ptr.old row_word_indices.old row_masks.old column_word_ptr.old column_word_indices.old column_masks.old starts.old order.old region.old frontier.old scratch.old global_nodes.old local_row_ptr.old local_col_idx.old source_ptr.old source_indices.old) matrix.entry.nrows matrix.entry.ncols (stores matrix.entry) (length matrix.entry.col_idx.now) row_masks.old }
    ensures column_pointers { column_word_ptr.new ≡ built_ptr (check_prepare matrix.entry layout.entry seeds.entry row_word_ptr.old row_word_indices.old row_masks.old column_word_ptr.old column_word_indices.old column_masks.old starts.old order.old region.old frontier.old scratch.old global_nodes.old local_row_ptr.old local_col_idx.old source_ptr.old source_indices.old) matrix.entry.ncols matrix.entry.nrows (flip (stores matrix.entry)) column_word_ptr.old }
    ensures column_words { column_word_indices.new ≡ built_words (check_prepare matrix.entry layout.entry seeds.entry row_word_ptr.old row_word_indices.old row_masks.old column_word_ptr.old column_word_indices.old column_masks.old starts.old order.old region.old frontier.old scratch.old global_nodes.old local_row_ptr.old local_col_idx.old source_ptr.old source_indices.old) matrix.entry.ncols matrix.entry.nrows (flip (stores matrix.entry)) (length matrix.entry.col_idx.now) column_word_indices.old }
    ensures column_masked { column_masks.new ≡ built_masks (check_prepare matrix.entry layout.entry seeds.entry row_word_ptr.old row_word_indices.old row_masks.old column_word_ptr.old column_word_indices.old column_masks.old starts.old order.old region.old frontier.old scratch.old global_nodes.old local_row_ptr.old local_col_idx.old source_ptr.old source_indices.old) matrix.entry.ncols matrix.entry.nrows (flip (stores matrix.entry)) (length matrix.entry.col_idx.now) column_masks.old }
    ensures scratch_starts { starts.new ≡ zeros (check_prepare matrix.entry layout.entry seeds.entry row_word_ptr.old row_word_indices.old row_masks.old column_word_ptr.old column_word_indices.old column_masks.old starts.old order.old region.old frontier.old scratch.old global_nodes.old local_row_ptr.old local_col_idx.old source_ptr.old source_indices.old) (matrix.entry.ncols + 1) starts.old }
    ensures scratch_order { order.new ≡ zeros (check_prepare matrix.entry layout.entry seeds.entry row_word_ptr.old row_word_indices.old row_masks.old column_word_ptr.old column_word_indices.old column_masks.old starts.old order.old region.old frontier.old scratch.old global_nodes.old local_row_ptr.old local_col_idx.old source_ptr.old source_indices.old) (length matrix.entry.col_idx.now) order.old }
    ensures inside { region.new ≡ region_left (check_prepare matrix.entry layout.entry seeds.entry row_word_ptr.old row_word_indices.old row_masks.old column_word_ptr.old column_word_indices.old column_masks.old starts.old order.old region.old frontier.old scratch.old global_nodes.old local_row_ptr.old local_col_idx.old source_ptr.old source_indices.old) (network matrix.entry layout.entry) seeds.entry.words.now hops region.old }
    ensures edge { frontier.new ≡ frontier_left (check_prepare matrix.entry layout.entry seeds.entry row_word_ptr.old row_word_indices.old row_masks.old column_word_ptr.old column_word_indices.old column_masks.old starts.old order.old region.old frontier.old scratch.old global_nodes.old local_row_ptr.old local_col_idx.old source_ptr.old source_indices.old) (network matrix.entry layout.entry) seeds.entry.words.now hops frontier.old }
    ensures spent { scratch.new ≡ scratch_left (check_prepare matrix.entry layout.entry seeds.entry row_word_ptr.old row_word_indices.old row_masks.old column_word_ptr.old column_word_indices.old column_masks.old starts.old order.old region.old frontier.old scratch.old global_nodes.old local_row_ptr.old local_col_idx.old source_ptr.old source_indices.old) (total layout.entry) scratch.old }
    ensures members { global_nodes.new ≡ prepared_nodes (check_prepare matrix.entry layout.entry seeds.entry row_word_ptr.old row_word_indices.old row_masks.old column_word_ptr.old column_word_indices.old column_masks.old starts.old order.old region.old frontier.old scratch.old global_nodes.old local_row_ptr.old local_col_idx.old source_ptr.old source_indices.old) matrix.entry.nrows (grown matrix.entry layout.entry seeds.entry hops) global_nodes.old }
    ensures pointers { local_row_ptr.new ≡ prepared_ptr (check_prepare matrix.entry layout.entry seeds.entry row_word_ptr.old row_word_indices.old row_masks.old column_word_ptr.old column_word_indices.old column_masks.old starts.old order.old region.old frontier.old scratch.old global_nodes.old local_row_ptr.old local_col_idx.old source_ptr.old source_indices.old) matrix.entry.nrows (grown matrix.entry layout.entry seeds.entry hops) (stores matrix.entry) local_row_ptr.old }
    ensures columns { local_col_idx.new ≡ prepared_columns (check_prepare matrix.entry layout.entry seeds.entry row_word_ptr.old row_word_indices.old row_masks.old column_word_ptr.old column_word_indices.old column_masks.old starts.old order.old region.old frontier.old scratch.old global_nodes.old local_row_ptr.old local_col_idx.old source_ptr.old source_indices.old) matrix.entry.nrows (grown matrix.entry layout.entry seeds.entry hops) (stores matrix.entry) (length matrix.entry.col_idx.now) local_col_idx.old }
    ensures source_pointers { source_ptr.new ≡ prepared_source_ptr (check_prepare matrix.entry layout.entry seeds.entry row_word_ptr.old row_word_indices.old row_masks.old column_word_ptr.old column_word_indices.old column_masks.old starts.old order.old region.old frontier.old scratch.old global_nodes.old local_row_ptr.old local_col_idx.old source_ptr.old source_indices.old) (lists matrix.entry layout.entry seeds.entry hops) (length matrix.entry.col_idx.now) source_ptr.old }
    ensures sources { source_indices.new ≡ prepared_sources (check_prepare matrix.entry layout.entry seeds.entry row_word_ptr.old row_word_indices.old row_masks.old column_word_ptr.old column_word_indices.old column_masks.old starts.old order.old region.old frontier.old scratch.old global_nodes.old local_row_ptr.old local_col_idx.old source_ptr.old source_indices.old) (lists matrix.entry layout.entry seeds.entry hops) (length matrix.entry.col_idx.now) source_indices.old }
{
    let inputs = Inputs::of(matrix, layout, seeds)?;
    let matrix = inputs.matrix;
    let room = PlanRoom {
        pattern: Room {
            nodes: global_nodes.len(),
            pointers: local_row_ptr.len(),
            columns: local_col_idx.len(),
        },
        source_pointers: source_ptr.len(),
        sources: source_indices.len(),
    };
    inner::check_room(
        matrix.nrows,
        matrix.ncols,
        matrix.col_idx.len(),
        row_word_ptr.len(),
        row_word_indices.len(),
        row_masks.len(),
        column_word_ptr.len(),
        column_word_indices.len(),
        column_masks.len(),
        starts.len(),
        order.len(),
        region.len(),
        frontier.len(),
        scratch.len(),
        room,
    )?;
    Ok(inputs.prepare(
        hops,
        row_word_ptr,
        row_word_indices,
        row_masks,
        column_word_ptr,
        column_word_indices,
        column_masks,
        starts,
        order,
        region,
        frontier,
        scratch,
        global_nodes,
        local_row_ptr,
        local_col_idx,
        source_ptr,
        source_indices,
    ))
}

// The owner of each block, as `field_block_owners` finds it, for the layout of a matrix.
pub fn validate_block_owners(
    matrix: Csr32Matrix,
    layout: FieldAwareDofLayout,
    dof_owners: &[u32],
    ranks: u32,
    out: &mut [u32],
) -> Result<u64, Refusal>
    ensures value { result ≡ owners_answer (check_block_owners matrix.entry layout.entry dof_owners.now ranks out.old) layout.entry.blocks.components.now }
    ensures owned { out.new ≡ owners_list (check_block_owners matrix.entry layout.entry dof_owners.now ranks out.old) layout.entry.blocks.components.now dof_owners.now out.old }
{
    matrix.validate()?;
    let layout = layout.accept_square(matrix.nrows, matrix.ncols)?;
    field_region::inner::check_owned(layout, dof_owners, ranks, out.len())?;
    field_region::inner::write_owners(layout, dof_owners, out);
    Ok(layout.components.len() as u64)
}
