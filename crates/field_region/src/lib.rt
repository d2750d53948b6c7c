// Regions of whole field blocks, field_region.rs of the Rust: closing a mask to blocks, growth that closes before the first hop and after
// every hop, and the owner of each block.
#![tactic(auto, using(dof_layout::proofs::Layouts::views))]

ghost use Rattle.std.specs.Prelude.{◌≡◌};
ghost use Rattle.dof_layout.specs.Views.{total};
ghost use Rattle.growth.specs.Lent.{region_left, frontier_left, scratch_left};
ghost use Rattle.field_region.specs.Growth.{field_grow_answer};
ghost use Rattle.field_region.specs.Closure.{close_answer, close_words};
ghost use Rattle.field_region.specs.Owners.{owners_answer, owners_list};
ghost use Rattle.field_region.specs.Views.{check_closing, check_owning, check_field_grow, blocked};

use base::Refusal;
use dof_layout::FieldAwareDofLayout;
use dual_topology::AbtmDualTopology;
use growth::Grown;
use growth::inner::Graph;
use inner::FieldGraph;
use mask::DofMask;

pub mod inner;

// What a growth by whole blocks did: its hops, how many nodes its seeds, their blocks and its region hold, the region's blocks, and what its hops
// visited.
#[derive(Clone, Copy)]
pub struct FieldAwareRegionStats {
    pub hops_requested: u64,
    pub hops_completed: u64,
    pub seed_dofs: u64,
    pub block_closed_seed_dofs: u64,
    pub region_dofs: u64,
    pub region_blocks: u64,
    pub frontier_dofs_visited: u64,
    pub row_words_visited: u64,
    pub column_words_visited: u64,
    pub candidate_neighbor_bits: u64,
}

// A growth, and how many nodes its seeds' blocks hold.
#[derive(Clone, Copy)]
pub struct BlocksGrown {
    pub closed_seeds: u64,
    pub grown: Grown,
}

// Each block with a selected node is taken whole. The room is tested and the list cut here: a function for both would hand back a part that is
// written, and each contract would say besides what becomes of the rest.
#[tactic(auto, using(base::proofs::Checks::checks, dof_layout::proofs::Layouts::views), unfolding(crate::specs::Closure::close_check))]
pub fn close_to_field_blocks(
    layout: FieldAwareDofLayout,
    mask: DofMask,
    out: &mut [u64],
) -> Result<u64, Refusal>
    ensures value { result ≡ close_answer (check_closing layout.entry mask.entry out.old) mask.entry.len }
    ensures out_after { out.new ≡ close_words (check_closing layout.entry mask.entry out.old) layout.entry.blocks.components.now mask.entry.words.now out.old }
{
    let layout = layout.accept()?;
    let mask = mask.accept_of(layout.total())?;
    let need = mask::inner::words_for(mask.len);
    if need > out.len() {
        return Err(Refusal::ListTooShort);
    }
    inner::close(layout.components, layout.offsets, mask, &mut out[..need]);
    Ok(mask.len as u64)
}

// The owner of each block, which all its nodes have.
#[tactic(auto, using(base::proofs::Checks::checks, dof_layout::proofs::Layouts::views), unfolding(crate::specs::Owners::owners_check))]
pub fn field_block_owners(
    layout: FieldAwareDofLayout,
    dof_owners: &[u32],
    ranks: u32,
    out: &mut [u32],
) -> Result<u64, Refusal>
    ensures value { result ≡ owners_answer (check_owning layout.entry dof_owners.now ranks out.old) layout.entry.blocks.components.now }
    ensures out_after { out.new ≡ owners_list (check_owning layout.entry dof_owners.now ranks out.old) layout.entry.blocks.components.now dof_owners.now out.old }
{
    let layout = layout.accept()?;
    inner::check_owned(layout, dof_owners, ranks, out.len())?;
    inner::write_owners(layout, dof_owners, out);
    Ok(layout.components.len() as u64)
}

// The whole blocks within `hops` links of the mask's blocks, and those at exactly so many. The lists take a mask each; `scratch` is left zero. They
// are written, each with an equation of its own, and so handed in one by one.
#[tactic(auto, using(base::proofs::Checks::checks, dof_layout::proofs::Layouts::views), unfolding(crate::specs::Growth::field_grow_check))]
pub fn grow_field_aware_region<'a>(
    topology: AbtmDualTopology<'a>,
    layout: FieldAwareDofLayout<'a>,
    mask: DofMask,
    hops: u64,
    region: &mut [u64],
    frontier: &mut [u64],
    scratch: &mut [u64],
) -> Result<FieldAwareRegionStats, Refusal>
    ensures value { result ≡ field_grow_answer (check_field_grow topology.entry layout.entry mask.entry region.old frontier.old scratch.old) (blocked topology.entry layout.entry) mask.entry.words.now hops }
    ensures inside { region.new ≡ region_left (check_field_grow topology.entry layout.entry mask.entry region.old frontier.old scratch.old) (blocked topology.entry layout.entry) mask.entry.words.now hops region.old }
    ensures edge { frontier.new ≡ frontier_left (check_field_grow topology.entry layout.entry mask.entry region.old frontier.old scratch.old) (blocked topology.entry layout.entry) mask.entry.words.now hops frontier.old }
    ensures spent { scratch.new ≡ scratch_left (check_field_grow topology.entry layout.entry mask.entry region.old frontier.old scratch.old) (total layout.entry) scratch.old }
{
    let topology = topology.accept()?;
    let n = topology.rows.nrows;
    let layout = layout.accept_square(n, topology.rows.ncols)?;
    let seeds = mask.accept_of(n)?;
    growth::inner::check_room(n, region.len(), frontier.len(), scratch.len())?;
    let graph = Graph { n, topology };
    Ok(FieldGraph { graph, layout }.grow(seeds, hops, region, frontier, scratch))
}
