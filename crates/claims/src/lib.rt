// One theorem over the definitions that the public promises cite, of every list of growths and of pattern, plan and gather on the region that it
// comes to (docs/PROMISES.md, claims), worked lines through all checks, and functions that run what the theorem speaks of.
#![tactic(auto)]

ghost use Rattle.std.specs.Prelude.{◌≡◌, Ok, length};
ghost use Rattle.base.specs.Checks.{Check};
ghost use Rattle.mask.specs.Mask.{length_check};
ghost use Rattle.dof_layout.specs.Views.{check_square};
ghost use Rattle.dual_topology.specs.declared.AbtmDualTopology.{AbtmDualTopology as Lent};
ghost use Rattle.dual_topology.specs.Views.{check_topology};
ghost use Rattle.graph.specs.Network.{Network};
ghost use Rattle.region.specs.Views.{plain};
ghost use Rattle.field_region.specs.Views.{blocked};
ghost use Rattle.growths.specs.Counts.{seeds_after, region_once_grown, frontier_once_grown, scratch_once_grown};
ghost use Rattle.claims.specs.Run.{ran_by};
ghost use Rattle.claims.specs.Views.{check_by, run_by, plain_run, field_run};

use base::Refusal;
use csr32::Csr32Matrix;
use dof_layout::FieldAwareDofLayout;
use dual_topology::AbtmDualTopology;
use growths::Ran;
use growths::inner::Asked;
use mask::DofMask;
use numeric_plan::AbtmLocalNumericPlanStats;
use pattern::AbtmLocalSubmatrixPatternStats;

pub mod inner;

// What pattern, plan and gather answered on one region.
#[derive(Clone, Copy)]
pub struct Cut {
    pub pattern: Result<AbtmLocalSubmatrixPatternStats, Refusal>,
    pub plan: Result<AbtmLocalNumericPlanStats, Refusal>,
    pub gathered: Result<u64, Refusal>,
}

// With no accepted growth there is no region to cut.
#[derive(Clone, Copy)]
pub struct GrowthRun {
    pub ran: Ran,
    pub cut: Option<Cut>,
}

// By what a list grows: by plain growths, or by field growths under one layout. To join this trait to `Grower` of growths, which is one growth of a
// list, would be no plainer, because each kind would have to state here, as a law, what `grow_list` and `grow_field_list` conclude from the checks
// (`Solid`).
trait Growing {
    ghost network: { Self → Lent → Network };

    ghost besides: { Self → Lent → Check };

    // What is checked besides, between the sides and the arrays.
    fn check(&self, topology: AbtmDualTopology) -> Result<(), Refusal>
        ensures { result ≡ besides self.now topology.entry };

    fn grow(
        &self,
        topology: AbtmDualTopology,
        len: usize,
        seeds: &mut [u64],
        asked: Asked,
        region: &mut [u64],
        frontier: &mut [u64],
        scratch: &mut [u64],
    ) -> Ran
        requires { (check_topology topology ≡ Ok tt) × (topology.rows.nrows ≡ topology.rows.ncols) × (besides self.now topology ≡ Ok tt) × (length_check topology.rows.nrows len seeds.old ≡ Ok tt) }
        ensures value { result ≡ ran_by topology.entry.rows.nrows asked.entry.hops.now asked.entry.rooms.now region.old frontier.old scratch.old }
        ensures renewed { seeds.new ≡ seeds_after (network self.now topology.entry) result seeds.old }
        ensures inside { region.new ≡ region_once_grown (network self.now topology.entry) result seeds.old region.old }
        ensures edge { frontier.new ≡ frontier_once_grown (network self.now topology.entry) result seeds.old frontier.old }
        ensures spent { scratch.new ≡ scratch_once_grown (network self.now topology.entry) result scratch.old };
}

#[derive(Clone, Copy)]
struct Plain;

impl Growing for Plain {
    ghost network = { λ by t. plain t };

    ghost besides = { λ by t. Ok tt };

    fn check(&self, _topology: AbtmDualTopology) -> Result<(), Refusal> {
        Ok(())
    }

    fn grow(
        &self,
        topology: AbtmDualTopology,
        len: usize,
        seeds: &mut [u64],
        asked: Asked,
        region: &mut [u64],
        frontier: &mut [u64],
        scratch: &mut [u64],
    ) -> Ran {
        growths::inner::grow_list(topology, len, seeds, asked, region, frontier, scratch)
    }
}

#[derive(Clone, Copy)]
struct Fields<'a> {
    layout: FieldAwareDofLayout<'a>,
}

impl Growing for Fields<'_> {
    ghost network = { λ by t. blocked t by.layout };

    ghost besides = { λ by t. check_square by.layout t.rows.nrows t.rows.ncols };

    fn check(&self, topology: AbtmDualTopology) -> Result<(), Refusal> {
        self.layout
            .validate_square_matrix_size(topology.rows.nrows, topology.rows.ncols)
    }

    fn grow(
        &self,
        topology: AbtmDualTopology,
        len: usize,
        seeds: &mut [u64],
        asked: Asked,
        region: &mut [u64],
        frontier: &mut [u64],
        scratch: &mut [u64],
    ) -> Ran {
        growths::inner::grow_field_list(
            topology,
            self.layout,
            len,
            seeds,
            asked,
            region,
            frontier,
            scratch,
        )
    }
}

// The matrix, the topology and its sides, what is checked besides, the arrays.
fn check<B: Growing>(
    by: &B,
    topology: AbtmDualTopology,
    matrix: Csr32Matrix,
    seeds: DofMask,
    hops: &[u64],
    rooms: &[u64],
) -> Result<(), Refusal>
    ensures { result ≡ check_by (B.besides by.now topology.entry) topology.entry matrix.entry seeds.entry.len seeds.entry.words.now hops.now rooms.now }
{
    let compared = inner::compare(topology, matrix)?;
    by.check(topology)?;
    compared.check_lists(seeds, hops, rooms)
}

// Lists that are written are no struct, since each contract would say besides that the struct's references stay: so each is an argument, and the
// functions are long.
fn run<'a, B: Growing>(
    by: &B,
    topology: AbtmDualTopology<'a>,
    matrix: Csr32Matrix<'a>,
    len: usize,
    seeds: &mut [u64],
    hops: &[u64],
    rooms: &[u64],
    new_values: &[f64],
    region: &mut [u64],
    frontier: &mut [u64],
    scratch: &mut [u64],
    global_nodes: &mut [u32],
    local_row_ptr: &mut [u32],
    local_col_idx: &mut [u32],
    source_ptr: &mut [u32],
    source_indices: &mut [u32],
    out: &mut [f64],
) -> Result<GrowthRun, Refusal>
    ensures value { result ≡ (run_by (B.besides by.now topology.entry) (B.network by.now topology.entry) topology.entry matrix.entry len seeds.old hops.now rooms.now new_values.now region.old frontier.old scratch.old global_nodes.old local_row_ptr.old local_col_idx.old source_ptr.old source_indices.old out.old).answer }
    ensures renewed { seeds.new ≡ (run_by (B.besides by.now topology.entry) (B.network by.now topology.entry) topology.entry matrix.entry len seeds.old hops.now rooms.now new_values.now region.old frontier.old scratch.old global_nodes.old local_row_ptr.old local_col_idx.old source_ptr.old source_indices.old out.old).seeds }
    ensures inside { region.new ≡ (run_by (B.besides by.now topology.entry) (B.network by.now topology.entry) topology.entry matrix.entry len seeds.old hops.now rooms.now new_values.now region.old frontier.old scratch.old global_nodes.old local_row_ptr.old local_col_idx.old source_ptr.old source_indices.old out.old).region }
    ensures edge { frontier.new ≡ (run_by (B.besides by.now topology.entry) (B.network by.now topology.entry) topology.entry matrix.entry len seeds.old hops.now rooms.now new_values.now region.old frontier.old scratch.old global_nodes.old local_row_ptr.old local_col_idx.old source_ptr.old source_indices.old out.old).frontier }
    ensures spent { scratch.new ≡ (run_by (B.besides by.now topology.entry) (B.network by.now topology.entry) topology.entry matrix.entry len seeds.old hops.now rooms.now new_values.now region.old frontier.old scratch.old global_nodes.old local_row_ptr.old local_col_idx.old source_ptr.old source_indices.old out.old).scratch }
    ensures members { global_nodes.new ≡ (run_by (B.besides by.now topology.entry) (B.network by.now topology.entry) topology.entry matrix.entry len seeds.old hops.now rooms.now new_values.now region.old frontier.old scratch.old global_nodes.old local_row_ptr.old local_col_idx.old source_ptr.old source_indices.old out.old).nodes }
    ensures pointers { local_row_ptr.new ≡ (run_by (B.besides by.now topology.entry) (B.network by.now topology.entry) topology.entry matrix.entry len seeds.old hops.now rooms.now new_values.now region.old frontier.old scratch.old global_nodes.old local_row_ptr.old local_col_idx.old source_ptr.old source_indices.old out.old).ptr }
    ensures columns { local_col_idx.new ≡ (run_by (B.besides by.now topology.entry) (B.network by.now topology.entry) topology.entry matrix.entry len seeds.old hops.now rooms.now new_values.now region.old frontier.old scratch.old global_nodes.old local_row_ptr.old local_col_idx.old source_ptr.old source_indices.old out.old).columns }
    ensures starts { source_ptr.new ≡ (run_by (B.besides by.now topology.entry) (B.network by.now topology.entry) topology.entry matrix.entry len seeds.old hops.now rooms.now new_values.now region.old frontier.old scratch.old global_nodes.old local_row_ptr.old local_col_idx.old source_ptr.old source_indices.old out.old).source_ptr }
    ensures sources { source_indices.new ≡ (run_by (B.besides by.now topology.entry) (B.network by.now topology.entry) topology.entry matrix.entry len seeds.old hops.now rooms.now new_values.now region.old frontier.old scratch.old global_nodes.old local_row_ptr.old local_col_idx.old source_ptr.old source_indices.old out.old).sources }
    ensures filled { out.new ≡ (run_by (B.besides by.now topology.entry) (B.network by.now topology.entry) topology.entry matrix.entry len seeds.old hops.now rooms.now new_values.now region.old frontier.old scratch.old global_nodes.old local_row_ptr.old local_col_idx.old source_ptr.old source_indices.old out.old).values }
{
    let first = DofMask { len, words: seeds };
    check(by, topology, matrix, first, hops, rooms)?;
    let asked = Asked { hops, rooms };
    let ran = by.grow(topology, len, seeds, asked, region, frontier, scratch);
    let grown = DofMask { len, words: seeds };
    Ok(inner::finish(
        ran,
        topology,
        matrix,
        grown,
        new_values,
        global_nodes,
        local_row_ptr,
        local_col_idx,
        source_ptr,
        source_indices,
        out,
    ))
}

// A list of growths: growth i goes by hops[i], is lent the first rooms[i] words of region, frontier and scratch, as far as they reach, and is seeded
// with the region of the last accepted one, which `seeds` is left with. Then pattern, plan and gather on that region. What is left is as after one
// growth by the total of the accepted counts.
pub fn run_growths<'a>(
    topology: AbtmDualTopology<'a>,
    matrix: Csr32Matrix<'a>,
    len: usize,
    seeds: &mut [u64],
    hops: &[u64],
    rooms: &[u64],
    new_values: &[f64],
    region: &mut [u64],
    frontier: &mut [u64],
    scratch: &mut [u64],
    global_nodes: &mut [u32],
    local_row_ptr: &mut [u32],
    local_col_idx: &mut [u32],
    source_ptr: &mut [u32],
    source_indices: &mut [u32],
    out: &mut [f64],
) -> Result<GrowthRun, Refusal>
    ensures value { result ≡ (plain_run topology.entry matrix.entry len seeds.old hops.now rooms.now new_values.now region.old frontier.old scratch.old global_nodes.old local_row_ptr.old local_col_idx.old source_ptr.old source_indices.old out.old).answer }
    ensures renewed { seeds.new ≡ (plain_run topology.entry matrix.entry len seeds.old hops.now rooms.now new_values.now region.old frontier.old scratch.old global_nodes.old local_row_ptr.old local_col_idx.old source_ptr.old source_indices.old out.old).seeds }
    ensures inside { region.new ≡ (plain_run topology.entry matrix.entry len seeds.old hops.now rooms.now new_values.now region.old frontier.old scratch.old global_nodes.old local_row_ptr.old local_col_idx.old source_ptr.old source_indices.old out.old).region }
    ensures edge { frontier.new ≡ (plain_run topology.entry matrix.entry len seeds.old hops.now rooms.now new_values.now region.old frontier.old scratch.old global_nodes.old local_row_ptr.old local_col_idx.old source_ptr.old source_indices.old out.old).frontier }
    ensures spent { scratch.new ≡ (plain_run topology.entry matrix.entry len seeds.old hops.now rooms.now new_values.now region.old frontier.old scratch.old global_nodes.old local_row_ptr.old local_col_idx.old source_ptr.old source_indices.old out.old).scratch }
    ensures members { global_nodes.new ≡ (plain_run topology.entry matrix.entry len seeds.old hops.now rooms.now new_values.now region.old frontier.old scratch.old global_nodes.old local_row_ptr.old local_col_idx.old source_ptr.old source_indices.old out.old).nodes }
    ensures pointers { local_row_ptr.new ≡ (plain_run topology.entry matrix.entry len seeds.old hops.now rooms.now new_values.now region.old frontier.old scratch.old global_nodes.old local_row_ptr.old local_col_idx.old source_ptr.old source_indices.old out.old).ptr }
    ensures columns { local_col_idx.new ≡ (plain_run topology.entry matrix.entry len seeds.old hops.now rooms.now new_values.now region.old frontier.old scratch.old global_nodes.old local_row_ptr.old local_col_idx.old source_ptr.old source_indices.old out.old).columns }
    ensures starts { source_ptr.new ≡ (plain_run topology.entry matrix.entry len seeds.old hops.now rooms.now new_values.now region.old frontier.old scratch.old global_nodes.old local_row_ptr.old local_col_idx.old source_ptr.old source_indices.old out.old).source_ptr }
    ensures sources { source_indices.new ≡ (plain_run topology.entry matrix.entry len seeds.old hops.now rooms.now new_values.now region.old frontier.old scratch.old global_nodes.old local_row_ptr.old local_col_idx.old source_ptr.old source_indices.old out.old).sources }
    ensures filled { out.new ≡ (plain_run topology.entry matrix.entry len seeds.old hops.now rooms.now new_values.now region.old frontier.old scratch.old global_nodes.old local_row_ptr.old local_col_idx.old source_ptr.old source_indices.old out.old).values }
{
    run(
        &Plain,
        topology,
        matrix,
        len,
        seeds,
        hops,
        rooms,
        new_values,
        region,
        frontier,
        scratch,
        global_nodes,
        local_row_ptr,
        local_col_idx,
        source_ptr,
        source_indices,
        out,
    )
}

// The same with field growths under one layout.
pub fn run_field_growths<'a>(
    topology: AbtmDualTopology<'a>,
    matrix: Csr32Matrix<'a>,
    layout: FieldAwareDofLayout<'a>,
    len: usize,
    seeds: &mut [u64],
    hops: &[u64],
    rooms: &[u64],
    new_values: &[f64],
    region: &mut [u64],
    frontier: &mut [u64],
    scratch: &mut [u64],
    global_nodes: &mut [u32],
    local_row_ptr: &mut [u32],
    local_col_idx: &mut [u32],
    source_ptr: &mut [u32],
    source_indices: &mut [u32],
    out: &mut [f64],
) -> Result<GrowthRun, Refusal>
    ensures value { result ≡ (field_run topology.entry matrix.entry layout.entry len seeds.old hops.now rooms.now new_values.now region.old frontier.old scratch.old global_nodes.old local_row_ptr.old local_col_idx.old source_ptr.old source_indices.old out.old).answer }
    ensures renewed { seeds.new ≡ (field_run topology.entry matrix.entry layout.entry len seeds.old hops.now rooms.now new_values.now region.old frontier.old scratch.old global_nodes.old local_row_ptr.old local_col_idx.old source_ptr.old source_indices.old out.old).seeds }
    ensures inside { region.new ≡ (field_run topology.entry matrix.entry layout.entry len seeds.old hops.now rooms.now new_values.now region.old frontier.old scratch.old global_nodes.old local_row_ptr.old local_col_idx.old source_ptr.old source_indices.old out.old).region }
    ensures edge { frontier.new ≡ (field_run topology.entry matrix.entry layout.entry len seeds.old hops.now rooms.now new_values.now region.old frontier.old scratch.old global_nodes.old local_row_ptr.old local_col_idx.old source_ptr.old source_indices.old out.old).frontier }
    ensures spent { scratch.new ≡ (field_run topology.entry matrix.entry layout.entry len seeds.old hops.now rooms.now new_values.now region.old frontier.old scratch.old global_nodes.old local_row_ptr.old local_col_idx.old source_ptr.old source_indices.old out.old).scratch }
    ensures members { global_nodes.new ≡ (field_run topology.entry matrix.entry layout.entry len seeds.old hops.now rooms.now new_values.now region.old frontier.old scratch.old global_nodes.old local_row_ptr.old local_col_idx.old source_ptr.old source_indices.old out.old).nodes }
    ensures pointers { local_row_ptr.new ≡ (field_run topology.entry matrix.entry layout.entry len seeds.old hops.now rooms.now new_values.now region.old frontier.old scratch.old global_nodes.old local_row_ptr.old local_col_idx.old source_ptr.old source_indices.old out.old).ptr }
    ensures columns { local_col_idx.new ≡ (field_run topology.entry matrix.entry layout.entry len seeds.old hops.now rooms.now new_values.now region.old frontier.old scratch.old global_nodes.old local_row_ptr.old local_col_idx.old source_ptr.old source_indices.old out.old).columns }
    ensures starts { source_ptr.new ≡ (field_run topology.entry matrix.entry layout.entry len seeds.old hops.now rooms.now new_values.now region.old frontier.old scratch.old global_nodes.old local_row_ptr.old local_col_idx.old source_ptr.old source_indices.old out.old).source_ptr }
    ensures sources { source_indices.new ≡ (field_run topology.entry matrix.entry layout.entry len seeds.old hops.now rooms.now new_values.now region.old frontier.old scratch.old global_nodes.old local_row_ptr.old local_col_idx.old source_ptr.old source_indices.old out.old).sources }
    ensures filled { out.new ≡ (field_run topology.entry matrix.entry layout.entry len seeds.old hops.now rooms.now new_values.now region.old frontier.old scratch.old global_nodes.old local_row_ptr.old local_col_idx.old source_ptr.old source_indices.old out.old).values }
{
    run(
        &Fields { layout },
        topology,
        matrix,
        len,
        seeds,
        hops,
        rooms,
        new_values,
        region,
        frontier,
        scratch,
        global_nodes,
        local_row_ptr,
        local_col_idx,
        source_ptr,
        source_indices,
        out,
    )
}
