// The work on field blocks, for callers that have checked: no part of the API. Of lists that are written each has an equation, and in a struct behind
// `&mut` each contract would say besides that the references stay.
ghost use Rattle.std.specs.Prelude.{◌≡◌, false, ◌+◌, ◌-◌, ◌<◌, ◌≤◌, eqb, length, get_or, replicate};
ghost use Rattle.base.specs.Checks.{checks_below, side_limit};
ghost use Rattle.base.specs.Lists.{over};
ghost use Rattle.base.specs.Sets.{every_below, count_below};
ghost use Rattle.mask.specs.Mask.{words_needed, mask_words, in_mask, IsMask};
ghost use Rattle.dof_layout.specs.Layout.{start_of, total_of, offsets_of};
ghost use Rattle.graph.specs.Network.{region_words, frontier_words};
ghost use Rattle.field_region.specs.Growth.{blocks_grown_by, field_stats};
ghost use Rattle.field_region.specs.Closure.{closed_words};
ghost use Rattle.field_region.specs.Owners.{owner_check, owned_check, owners_of};

use crate::{BlocksGrown, FieldAwareRegionStats};
use base::Refusal;
use dof_layout::inner::Layout;
use growth::Visited;
use growth::inner::{Graph, Hop};
use mask::inner::Mask;
use word::AbtmTopologyWord;

// A graph under a layout of its nodes.
#[derive(Clone, Copy)]
pub struct FieldGraph<'a> {
    pub graph: Graph<'a>,
    pub layout: Layout<'a>,
    ghost sized: { graph.n ≡ total_of layout.components.now },
}

// A graph under the blocks of its nodes, of which any may have no component: closing and growth need no more of a layout than its two lists.
#[derive(Clone, Copy)]
pub struct BlockGraph<'a> {
    pub graph: Graph<'a>,
    pub components: &'a [u32],
    pub offsets: &'a [u64],
    ghost totals: { offsets.now ≡ offsets_of components.now },
    ghost sized: { graph.n ≡ total_of components.now },
}

// The blocks of the mask's nodes are taken whole, in place. The scan of a block stops at its first selected bit; after one that finds none, the
// blocks that end at or before the next selected node are passed. It takes the layout's two lists: closing took three times its time while it was
// handed the layout as a struct. Nested loops left by a label are one of the forms that are asked for (docs/DECISIONS.md, at its end), and so each
// `continue` names it. The passing is one jump to the next member, which no list of members gives while the mask is written. A block within one word
// is taken by its bits, which are at hand, and without a call: the speed rule of the project speaks of such inner loops. It is no part of its
// callers: among what they need, the block's number would be kept in memory, and each block that is passed would wait for it.
#[inline(never)]
pub fn close_in_place(components: &[u32], offsets: &[u64], words: &mut [u64])
    requires { (offsets.now ≡ offsets_of components.now) × (total_of components.now ≤ side_limit) × IsMask (total_of components.now) words.old }
    ensures { words.new ≡ closed_words components.now words.old }
{
    let total = offsets[components.len()] as usize;
    let mut next: usize = 0;
    'blocks: for b in 0..components.len() {
        let start = offsets[b] as usize;
        let end = offsets[b + 1] as usize;
        if end <= next {
            continue 'blocks;
        }
        let first = start / AbtmTopologyWord::BITS;
        let stop = mask::inner::words_for(end);
        for w in first..stop {
            let block = mask::inner::bits_between(start, end, w);
            if words[w] & block != 0 {
                if stop == first + 1 {
                    words[w] |= block;
                    continue 'blocks;
                }
                mask::inner::add_range(total, words, start, end);
                continue 'blocks;
            }
        }
        next = Mask { len: total, words }.next_member(end);
    }
}

// The mask's blocks taken whole, on another list.
pub fn close(components: &[u32], offsets: &[u64], mask: Mask, out: &mut [u64])
    requires { (offsets.now ≡ offsets_of components.now) × (mask.len ≡ total_of components.now) × (length out.old ≡ words_needed mask.len) }
    ensures { out.new ≡ closed_words components.now mask.entry.words.now }
{
    mask.copy(out);
    close_in_place(components, offsets, out);
}

// Whether all nodes from `start` up to `end` have the owner, as the first does.
fn owned(dof_owners: &[u32], start: usize, end: usize, owner: u32) -> bool
    requires { (start < end) × (end ≤ length dof_owners.now) × (get_or dof_owners.now start 0 ≡ owner) }
    ensures { result ≡ every_below (end - start) (λ j. eqb (get_or dof_owners.now (start + j) 0) owner) }
{
    dof_owners[start + 1..end].iter().all(|x| *x == owner)
}

// Block by block, that its owner is below the ranks and all its nodes have it. By index: of two neighbours that `windows(2)` gives, it would be left
// to show that they are two.
#[tactic(auto, using(crate::proofs::Blocks::blocks))]
pub fn check_blocks(layout: Layout, dof_owners: &[u32], ranks: u32) -> Result<(), Refusal>
    requires { length dof_owners.now ≡ total_of layout.components.now }
    ensures { result ≡ checks_below (length layout.entry.components.now) (owner_check layout.entry.components.now dof_owners.now ranks) }
{
    for b in 0..layout.components.len() {
        let start = layout.start(b);
        let end = layout.start(b + 1);
        let owner = dof_owners[start];
        if owner >= ranks {
            return Err(Refusal::OwnerOutOfRange);
        }
        if !owned(dof_owners, start, end, owner) {
            return Err(Refusal::OwnersDiffer);
        }
    }
    Ok(())
}

// The owners' length, the ranks, block by block, the length of the list: all but the layout.
#[tactic(auto, using(base::proofs::Checks::checks), unfolding(crate::specs::Owners::owned_check))]
pub fn check_owned(
    layout: Layout,
    dof_owners: &[u32],
    ranks: u32,
    room: usize,
) -> Result<(), Refusal>
    ensures { result ≡ owned_check layout.entry.components.now dof_owners.now ranks room }
{
    let total = layout.total();
    base::must_be(total, dof_owners.len())?;
    if ranks == 0 {
        return Err(Refusal::NoRanks);
    }
    check_blocks(layout, dof_owners, ranks)?;
    if layout.components.len() > room {
        return Err(Refusal::ListTooShort);
    }
    Ok(())
}

// Each block's first owner at the front of `out`, which has room for them.
#[tactic(auto, using(crate::proofs::Blocks::blocks))]
pub fn write_owners(layout: Layout, dof_owners: &[u32], out: &mut [u32])
    requires { (length dof_owners.now ≡ total_of layout.components.now) × (length layout.components.now ≤ length out.old) }
    ensures { out.new ≡ over (owners_of layout.entry.components.now dof_owners.now) out.old }
{
    let count = layout.components.len();
    for (b, owner) in out[..count].iter_mut().enumerate() {
        *owner = dof_owners[layout.start(b)];
    }
}

// How many blocks the region holds, which holds only whole blocks: those whose first node it holds.
pub fn count_blocks(layout: Layout, region: Mask) -> u64
    requires { region.len ≡ total_of layout.components.now }
    ensures { result ≡ count_below (length layout.entry.components.now) (λ b. in_mask region.entry.words.now (start_of layout.entry.components.now b)) }
{
    (0..layout.components.len())
        .filter(|b| region.holds(layout.start(*b)))
        .count() as u64
}

impl<'a> Hop for BlockGraph<'a> {
    ghost use Rattle.field_region.specs.Views.{block_network};

    ghost network = { block_network };

    fn reach(&self, frontier: Mask, reached: &mut [u64]) -> Visited {
        let found = self.graph.expand(frontier, reached);
        close_in_place(self.components, self.offsets, reached);
        found
    }
}

impl BlockGraph<'_> {
    ghost use Rattle.field_region.specs.Views.{block_network};

    // The masks after `hops` hops from the seeds' blocks: closed to blocks before the first hop and after every hop.
    pub fn grow_blocks(
        self,
        seeds: Mask,
        hops: u64,
        region: &mut [u64],
        frontier: &mut [u64],
        scratch: &mut [u64],
    ) -> BlocksGrown
        requires { (seeds.len ≡ self.graph.n) × (length region.old ≡ words_needed self.graph.n) × (length frontier.old ≡ words_needed self.graph.n) × (length scratch.old ≡ words_needed self.graph.n) }
        ensures value { result ≡ blocks_grown_by (block_network self.entry) seeds.entry.words.now hops }
        ensures region_after { region.new ≡ region_words (block_network self.entry) seeds.entry.words.now hops }
        ensures frontier_after { frontier.new ≡ frontier_words (block_network self.entry) seeds.entry.words.now hops }
        ensures scratch_after { scratch.new ≡ mask_words (total_of self.entry.components.now) (λ i. false) }
    {
        close(self.components, self.offsets, seeds, region);
        let start = Mask {
            len: self.graph.n,
            words: region,
        };
        let closed_seeds = start.count();
        BlocksGrown {
            closed_seeds,
            grown: growth::inner::grow_by_hops(&self, seeds, hops, region, frontier, scratch),
        }
    }
}

impl<'a> Hop for FieldGraph<'a> {
    ghost use Rattle.field_region.specs.Views.{fields};

    ghost network = { fields };

    fn reach(&self, frontier: Mask, reached: &mut [u64]) -> Visited {
        self.blocks().reach(frontier, reached)
    }
}

impl<'a> FieldGraph<'a> {
    // Its graph under its layout's two lists.
    fn blocks(self) -> BlockGraph<'a>
        ensures { (result.graph ≡ self.entry.graph) × (result.components ≡ self.entry.layout.components) }
    {
        BlockGraph {
            graph: self.graph,
            components: self.layout.components,
            offsets: self.layout.offsets,
        }
    }
}

impl FieldGraph<'_> {
    ghost use Rattle.field_region.specs.Views.{fields};

    // The growth by blocks, as that of the two lists.
    pub fn grow_blocks(
        self,
        seeds: Mask,
        hops: u64,
        region: &mut [u64],
        frontier: &mut [u64],
        scratch: &mut [u64],
    ) -> BlocksGrown
        requires { (seeds.len ≡ self.graph.n) × (length region.old ≡ words_needed self.graph.n) × (length frontier.old ≡ words_needed self.graph.n) × (length scratch.old ≡ words_needed self.graph.n) }
        ensures value { result ≡ blocks_grown_by (fields self.entry) seeds.entry.words.now hops }
        ensures region_after { region.new ≡ region_words (fields self.entry) seeds.entry.words.now hops }
        ensures frontier_after { frontier.new ≡ frontier_words (fields self.entry) seeds.entry.words.now hops }
        ensures scratch_after { scratch.new ≡ mask_words (total_of self.entry.layout.components.now) (λ i. false) }
    {
        self.blocks()
            .grow_blocks(seeds, hops, region, frontier, scratch)
    }

    // A growth and its statistics, on lists that reach their needed lengths; `scratch` is left zero.
    pub fn grow(
        self,
        seeds: Mask,
        hops: u64,
        region: &mut [u64],
        frontier: &mut [u64],
        scratch: &mut [u64],
    ) -> FieldAwareRegionStats
        requires { (seeds.len ≡ self.graph.n) × (words_needed self.graph.n ≤ length region.old) × (words_needed self.graph.n ≤ length frontier.old) × (words_needed self.graph.n ≤ length scratch.old) }
        ensures value { result ≡ field_stats (fields self.entry) seeds.entry.words.now hops }
        ensures inside { region.new ≡ over (region_words (fields self.entry) seeds.entry.words.now hops) region.old }
        ensures edge { frontier.new ≡ over (frontier_words (fields self.entry) seeds.entry.words.now hops) frontier.old }
        ensures spent { scratch.new ≡ over (replicate (words_needed (total_of self.entry.layout.components.now)) 0) scratch.old }
    {
        let need = mask::inner::words_for(self.graph.n);
        let blocks = self.grow_blocks(
            seeds,
            hops,
            &mut region[..need],
            &mut frontier[..need],
            &mut scratch[..need],
        );
        let inside = Mask {
            len: self.graph.n,
            words: &region[..need],
        };
        FieldAwareRegionStats {
            hops_requested: hops,
            hops_completed: blocks.grown.hops,
            seed_dofs: seeds.count(),
            block_closed_seed_dofs: blocks.closed_seeds,
            region_dofs: inside.count(),
            region_blocks: count_blocks(self.layout, inside),
            frontier_dofs_visited: blocks.grown.visits.nodes,
            row_words_visited: blocks.grown.visits.row_words,
            column_words_visited: blocks.grown.visits.column_words,
            candidate_neighbor_bits: blocks.grown.visits.candidate_bits,
        }
    }
}
