// The region grown in a built topology, its pattern and its plan, for callers that have checked: no part of the API.
ghost use Rattle.std.specs.Prelude.{◌≡◌, ◌+◌, ◌≤◌, length, replicate};
ghost use Rattle.base.specs.Checks.{side_limit};
ghost use Rattle.base.specs.Lists.{over, over_with_zeros, zeroed};
ghost use Rattle.base.specs.Sets.{members_below};
ghost use Rattle.csr32.specs.Matrix.{IsMatrix};
ghost use Rattle.csr32.specs.Views.{entries};
ghost use Rattle.mask.specs.Mask.{in_mask, words_needed, IsMask};
ghost use Rattle.dof_layout.specs.Layout.{total_of};
ghost use Rattle.side.specs.Views.{pairs};
ghost use Rattle.graph.specs.Network.{region_words, frontier_words};
ghost use Rattle.pattern.specs.Pattern.{pattern_ptr, pattern_columns};
ghost use Rattle.gather.specs.Plan.{plan_sources, plan_ptr};
ghost use Rattle.cutting.specs.Cut.{lists_of};
ghost use Rattle.cutting.specs.Steps.{LocalFits, MasksFit, local_stats, cut_stats};

use crate::{LocalStats, RegionCut};
use binding::Counts;
use binding::inner::System;
use csr32::inner::Matrix;
use field_region::inner::FieldGraph;
use mask::inner::Mask;
use numeric_plan::inner::Bound;
use pattern::inner::Local;

// `PreparedFieldAwareTopology` of the Rust: a matrix, and the graph of exactly its pairs under a layout of its nodes.
#[derive(Clone, Copy)]
pub struct Prepared<'a> {
    pub fields: FieldGraph<'a>,
    pub matrix: Matrix<'a>,
    ghost square: { IsMatrix fields.graph.n fields.graph.n matrix.row_ptr.now matrix.col_idx.now },
    ghost own: { pairs fields.graph.topology.rows ≡ entries matrix },
}

// The five lists are zeroed past what a plan of so many members, pairs and sources writes. The lists that are written are handed in one by one, here
// and below, each with its equation: in a struct behind `&mut` each contract would say besides that the references stay.
fn zero_past(
    n: usize,
    entries: usize,
    counts: Counts,
    global_nodes: &mut [u32],
    local_row_ptr: &mut [u32],
    local_col_idx: &mut [u32],
    source_ptr: &mut [u32],
    source_indices: &mut [u32],
)
    requires fits { LocalFits n entries global_nodes.old local_row_ptr.old local_col_idx.old source_ptr.old source_indices.old }
    requires few { (n ≤ side_limit) × (counts.members ≤ n) × (counts.rows.pairs ≤ entries) × (counts.rows.sources ≤ entries) }
    ensures members { global_nodes.new ≡ zeroed counts.members n global_nodes.old }
    ensures pointers { local_row_ptr.new ≡ zeroed (counts.members + 1) (n + 1) local_row_ptr.old }
    ensures columns { local_col_idx.new ≡ zeroed counts.rows.pairs entries local_col_idx.old }
    ensures source_pointers { source_ptr.new ≡ zeroed (counts.rows.pairs + 1) (entries + 1) source_ptr.old }
    ensures sources { source_indices.new ≡ zeroed counts.rows.sources entries source_indices.old }
{
    global_nodes[counts.members..n].fill(0);
    local_row_ptr[counts.members + 1..n + 1].fill(0);
    local_col_idx[counts.rows.pairs..entries].fill(0);
    source_ptr[counts.rows.pairs + 1..entries + 1].fill(0);
    source_indices[counts.rows.sources..entries].fill(0);
}

impl<'a> Prepared<'a> {
    ghost use Rattle.cutting.specs.Views.{network, grown, lists};

    // The pattern and the plan of a region: each list zero past its own part up to its needed length. The region is the front of a list that the
    // caller writes.
    fn plan(
        self,
        region: &'a [u64],
        global_nodes: &mut [u32],
        local_row_ptr: &mut [u32],
        local_col_idx: &mut [u32],
        source_ptr: &mut [u32],
        source_indices: &mut [u32],
    ) -> LocalStats
        requires mask { IsMask self.fields.graph.n region.now }
        requires fits { LocalFits self.fields.graph.n (length self.matrix.col_idx.now) global_nodes.old local_row_ptr.old local_col_idx.old source_ptr.old source_indices.old }
        ensures value { result ≡ local_stats self.entry.fields.graph.n (in_mask region.now) self.entry.matrix.row_ptr.now self.entry.matrix.col_idx.now }
        ensures members { global_nodes.new ≡ over_with_zeros (members_below self.entry.fields.graph.n (in_mask region.now)) self.entry.fields.graph.n global_nodes.old }
        ensures pointers { local_row_ptr.new ≡ over_with_zeros (pattern_ptr self.entry.fields.graph.n (in_mask region.now) (entries self.entry.matrix)) (self.entry.fields.graph.n + 1) local_row_ptr.old }
        ensures columns { local_col_idx.new ≡ over_with_zeros (pattern_columns self.entry.fields.graph.n (in_mask region.now) (entries self.entry.matrix)) (length self.entry.matrix.col_idx.now) local_col_idx.old }
        ensures source_pointers { source_ptr.new ≡ over_with_zeros (plan_ptr (lists_of self.entry.fields.graph.n (in_mask region.now) self.entry.matrix.row_ptr.now self.entry.matrix.col_idx.now)) ((length self.entry.matrix.col_idx.now) + 1) source_ptr.old }
        ensures sources { source_indices.new ≡ over_with_zeros (plan_sources (lists_of self.entry.fields.graph.n (in_mask region.now) self.entry.matrix.row_ptr.now self.entry.matrix.col_idx.now)) (length self.entry.matrix.col_idx.now) source_indices.old }
    {
        let n = self.fields.graph.n;
        let mask = Mask {
            len: n,
            words: region,
        };
        let local = Local {
            rows: self.fields.graph.topology.rows,
            region: mask,
        };
        let matrix = self.matrix;
        let system = System { local, matrix };
        let kept = local.count();
        let counts = system.counts(kept);
        let bound = Bound {
            system,
            paired: mask,
            terms: counts.rows.sources,
        };
        bound.write(
            global_nodes,
            local_row_ptr,
            local_col_idx,
            source_ptr,
            source_indices,
        );
        zero_past(
            n,
            matrix.col_idx.len(),
            counts,
            global_nodes,
            local_row_ptr,
            local_col_idx,
            source_ptr,
            source_indices,
        );
        LocalStats {
            pattern: pattern::inner::stats(n, kept),
            numeric_plan: numeric_plan::inner::stats(counts),
        }
    }
    // The region grown from the seeds, then its pattern and its plan.
    pub fn cut(
        self,
        seeds: Mask,
        hops: u64,
        region: &mut [u64],
        frontier: &mut [u64],
        scratch: &mut [u64],
        global_nodes: &mut [u32],
        local_row_ptr: &mut [u32],
        local_col_idx: &mut [u32],
        source_ptr: &mut [u32],
        source_indices: &mut [u32],
    ) -> RegionCut
        requires sized { seeds.len ≡ self.fields.graph.n }
        requires masks { MasksFit self.fields.graph.n region.old frontier.old scratch.old }
        requires lists { LocalFits self.fields.graph.n (length self.matrix.col_idx.now) global_nodes.old local_row_ptr.old local_col_idx.old source_ptr.old source_indices.old }
        ensures value { result ≡ cut_stats self.entry.fields.graph.n self.entry.matrix.row_ptr.now self.entry.matrix.col_idx.now self.entry.fields.layout.components.now seeds.entry.words.now hops }
        ensures inside { region.new ≡ over (region_words (network self.entry) seeds.entry.words.now hops) region.old }
        ensures edge { frontier.new ≡ over (frontier_words (network self.entry) seeds.entry.words.now hops) frontier.old }
        ensures spent { scratch.new ≡ over (replicate (words_needed (total_of self.entry.fields.layout.components.now)) 0) scratch.old }
        ensures members { global_nodes.new ≡ over_with_zeros (members_below self.entry.fields.graph.n (grown self.entry seeds.entry hops)) self.entry.fields.graph.n global_nodes.old }
        ensures pointers { local_row_ptr.new ≡ over_with_zeros (pattern_ptr self.entry.fields.graph.n (grown self.entry seeds.entry hops) (entries self.entry.matrix)) (self.entry.fields.graph.n + 1) local_row_ptr.old }
        ensures columns { local_col_idx.new ≡ over_with_zeros (pattern_columns self.entry.fields.graph.n (grown self.entry seeds.entry hops) (entries self.entry.matrix)) (length self.entry.matrix.col_idx.now) local_col_idx.old }
        ensures source_pointers { source_ptr.new ≡ over_with_zeros (plan_ptr (lists self.entry seeds.entry hops)) ((length self.entry.matrix.col_idx.now) + 1) source_ptr.old }
        ensures sources { source_indices.new ≡ over_with_zeros (plan_sources (lists self.entry seeds.entry hops)) (length self.entry.matrix.col_idx.now) source_indices.old }
    {
        let growth = self.fields.grow(seeds, hops, region, frontier, scratch);
        let need = mask::inner::words_for(self.fields.graph.n);
        let local = self.plan(
            &region[..need],
            global_nodes,
            local_row_ptr,
            local_col_idx,
            source_ptr,
            source_indices,
        );
        RegionCut { growth, local }
    }
}
