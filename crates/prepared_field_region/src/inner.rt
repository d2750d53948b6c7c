// The steps of a prepared region, for callers that have checked: no part of the API. Nothing that was built is checked again.
ghost use Rattle.std.specs.Prelude.{◌≡◌, Ok, Err, IfOk, IfErr, ◌+◌, ◌<◌, ◌≤◌, length, replicate};
ghost use Rattle.base.specs.Checks.{side_limit};
ghost use Rattle.base.specs.Lists.{over, over_with_zeros};
ghost use Rattle.base.specs.Sets.{members_below};
ghost use Rattle.csr32.specs.Views.{entries};
ghost use Rattle.mask.specs.Mask.{words_needed};
ghost use Rattle.dof_layout.specs.Layout.{total_of};
ghost use Rattle.side.specs.Side.{flip, side_ptr, side_words, side_masks};
ghost use Rattle.graph.specs.Network.{region_words, frontier_words};
ghost use Rattle.pattern.specs.Pattern.{pattern_ptr, pattern_columns};
ghost use Rattle.gather.specs.Plan.{plan_sources, plan_ptr};
ghost use Rattle.cutting.specs.Steps.{LocalFits, MasksFit};
ghost use Rattle.prepared_field_region.specs.Prepared.{prepare_room};
ghost use Rattle.prepared_field_region.specs.Steps.{BuildingFits, BuiltLists};

use crate::PreparedFieldAwareLocalRegion;
use base::Refusal;
use binding::{Counts, RowCounts};
use csr32::Csr32Matrix;
use csr32::inner::Matrix;
use cutting::inner::Prepared;
use dof_layout::FieldAwareDofLayout;
use dof_layout::inner::Layout;
use dual_topology::TopologyCounts;
use dual_topology::inner::Topology;
use field_region::inner::FieldGraph;
use growth::inner::Graph;
use mask::DofMask;
use mask::inner::Mask;
use numeric_plan::inner::PlanRoom;
use side::inner::Side;

// A square matrix, a layout of its nodes and seeds among them that were accepted.
#[derive(Clone, Copy)]
pub struct Inputs<'a> {
    pub matrix: Matrix<'a>,
    pub layout: Layout<'a>,
    pub seeds: Mask<'a>,
    ghost square: { matrix.ncols ≡ matrix.nrows },
    ghost sized: { matrix.nrows ≡ total_of layout.components.now },
    ghost alike: { seeds.len ≡ matrix.nrows },
}

impl<'a> Inputs<'a> {
    ghost use Rattle.prepared_field_region.specs.Views.{check_lent, AcceptedFrom, own_network, own_grown, own_lists, own_prepared};

    // The matrix, the layout against it, the mask.
    pub fn of(
        matrix: Csr32Matrix<'a>,
        layout: FieldAwareDofLayout<'a>,
        seeds: DofMask<'a>,
    ) -> Result<Inputs<'a>, Refusal>
        ensures refused { IfErr result (λ e. check_lent matrix.entry layout.entry seeds.entry ≡ Err e) }
        ensures accepted { IfOk result (λ i. (check_lent matrix.entry layout.entry seeds.entry ≡ Ok tt) × AcceptedFrom matrix.entry layout.entry seeds.entry i) }
    {
        let matrix = matrix.accept()?;
        let layout = layout.accept_square(matrix.nrows, matrix.ncols)?;
        let seeds = seeds.accept_of(matrix.nrows)?;
        Ok(Inputs {
            matrix,
            layout,
            seeds,
        })
    }

    // The graph of the matrix's pairs, built at the front of these lists, under the layout. That its topology holds these pairs is said by the
    // invariant of the struct that it answers.
    fn built(
        self,
        counts: TopologyCounts,
        row_word_ptr: &'a [u32],
        row_word_indices: &'a [u32],
        row_masks: &'a [u64],
        column_word_ptr: &'a [u32],
        column_word_indices: &'a [u32],
        column_masks: &'a [u64],
    ) -> Prepared<'a>
        requires { BuiltLists self.matrix.nrows self.matrix.ncols (entries self.matrix) counts row_word_ptr.now row_word_indices.now row_masks.now column_word_ptr.now column_word_indices.now column_masks.now }
        ensures { (result.fields.graph.n ≡ self.entry.matrix.nrows) × (result.fields.layout ≡ self.entry.layout) × (result.matrix ≡ self.entry.matrix) }
    {
        let n = self.matrix.nrows;
        let row_words = counts.row_words as usize;
        let column_words = counts.column_words as usize;
        let rows = Side {
            nrows: n,
            ncols: n,
            row_word_ptr: &row_word_ptr[..n + 1],
            word_indices: &row_word_indices[..row_words],
            masks: &row_masks[..row_words],
        };
        let columns = Side {
            nrows: n,
            ncols: n,
            row_word_ptr: &column_word_ptr[..self.matrix.ncols + 1],
            word_indices: &column_word_indices[..column_words],
            masks: &column_masks[..column_words],
        };
        let topology = Topology { rows, columns };
        let fields = FieldGraph {
            graph: Graph { n, topology },
            layout: self.layout,
        };
        Prepared {
            fields,
            matrix: self.matrix,
        }
    }

    // All steps, on lists that reach their needed lengths.
    pub fn prepare(
        self,
        hops: u64,
        row_word_ptr: &mut [u32],
        row_word_indices: &mut [u32],
        row_masks: &mut [u64],
        column_word_ptr: &mut [u32],
        column_word_indices: &mut [u32],
        column_masks: &mut [u64],
        starts: &mut [u32],
        order: &mut [u32],
        region: &mut [u64],
        frontier: &mut [u64],
        scratch: &mut [u64],
        global_nodes: &mut [u32],
        local_row_ptr: &mut [u32],
        local_col_idx: &mut [u32],
        source_ptr: &mut [u32],
        source_indices: &mut [u32],
    ) -> PreparedFieldAwareLocalRegion
        requires building { BuildingFits self.matrix.nrows self.matrix.ncols (length self.matrix.col_idx.now) row_word_ptr.old row_word_indices.old row_masks.old column_word_ptr.old column_word_indices.old column_masks.old starts.old order.old }
        requires room { MasksFit self.matrix.nrows region.old frontier.old scratch.old × LocalFits self.matrix.nrows (length self.matrix.col_idx.now) global_nodes.old local_row_ptr.old local_col_idx.old source_ptr.old source_indices.old }
        ensures value { result ≡ own_prepared self.entry hops }
        ensures row_pointers { row_word_ptr.new ≡ over (side_ptr self.entry.matrix.nrows self.entry.matrix.ncols (entries self.entry.matrix)) row_word_ptr.old }
        ensures row_words { row_word_indices.new ≡ over_with_zeros (side_words self.entry.matrix.nrows self.entry.matrix.ncols (entries self.entry.matrix)) (length self.entry.matrix.col_idx.now) row_word_indices.old }
        ensures row_masked { row_masks.new ≡ over_with_zeros (side_masks self.entry.matrix.nrows self.entry.matrix.ncols (entries self.entry.matrix)) (length self.entry.matrix.col_idx.now) row_masks.old }
        ensures column_pointers { column_word_ptr.new ≡ over (side_ptr self.entry.matrix.ncols self.entry.matrix.nrows (flip (entries self.entry.matrix))) column_word_ptr.old }
        ensures column_words { column_word_indices.new ≡ over_with_zeros (side_words self.entry.matrix.ncols self.entry.matrix.nrows (flip (entries self.entry.matrix))) (length self.entry.matrix.col_idx.now) column_word_indices.old }
        ensures column_masked { column_masks.new ≡ over_with_zeros (side_masks self.entry.matrix.ncols self.entry.matrix.nrows (flip (entries self.entry.matrix))) (length self.entry.matrix.col_idx.now) column_masks.old }
        ensures scratch_starts { starts.new ≡ over (replicate (self.entry.matrix.ncols + 1) 0) starts.old }
        ensures scratch_order { order.new ≡ over (replicate (length self.entry.matrix.col_idx.now) 0) order.old }
        ensures inside { region.new ≡ over (region_words (own_network self.entry) self.entry.seeds.words.now hops) region.old }
        ensures edge { frontier.new ≡ over (frontier_words (own_network self.entry) self.entry.seeds.words.now hops) frontier.old }
        ensures spent { scratch.new ≡ over (replicate (words_needed (total_of self.entry.layout.components.now)) 0) scratch.old }
        ensures members { global_nodes.new ≡ over_with_zeros (members_below self.entry.matrix.nrows (own_grown self.entry hops)) self.entry.matrix.nrows global_nodes.old }
        ensures pointers { local_row_ptr.new ≡ over_with_zeros (pattern_ptr self.entry.matrix.nrows (own_grown self.entry hops) (entries self.entry.matrix)) (self.entry.matrix.nrows + 1) local_row_ptr.old }
        ensures columns { local_col_idx.new ≡ over_with_zeros (pattern_columns self.entry.matrix.nrows (own_grown self.entry hops) (entries self.entry.matrix)) (length self.entry.matrix.col_idx.now) local_col_idx.old }
        ensures source_pointers { source_ptr.new ≡ over_with_zeros (plan_ptr (own_lists self.entry hops)) ((length self.entry.matrix.col_idx.now) + 1) source_ptr.old }
        ensures sources { source_indices.new ≡ over_with_zeros (plan_sources (own_lists self.entry hops)) (length self.entry.matrix.col_idx.now) source_indices.old }
    {
        let counts = dual_topology::inner::build(
            self.matrix,
            row_word_ptr,
            row_word_indices,
            row_masks,
            column_word_ptr,
            column_word_indices,
            column_masks,
            starts,
            order,
        );
        let topology = dual_topology::inner::stats(self.matrix.nrows, self.matrix.ncols, counts);
        let prepared = self.built(
            counts,
            row_word_ptr,
            row_word_indices,
            row_masks,
            column_word_ptr,
            column_word_indices,
            column_masks,
        );
        let whole = prepared.cut(
            self.seeds,
            hops,
            region,
            frontier,
            scratch,
            global_nodes,
            local_row_ptr,
            local_col_idx,
            source_ptr,
            source_indices,
        );
        PreparedFieldAwareLocalRegion {
            counts,
            topology,
            growth: whole.growth,
            pattern: whole.local.pattern,
            numeric_plan: whole.local.numeric_plan,
        }
    }
}

// The lengths of all lists: one call, so that `prepare_region` hands on one refusal with its seventeen equations, and not three.
pub fn check_room(
    nrows: usize,
    ncols: usize,
    entries: usize,
    row_pointers: usize,
    row_words: usize,
    row_masks: usize,
    column_pointers: usize,
    column_words: usize,
    column_masks: usize,
    starts: usize,
    order: usize,
    region: usize,
    frontier: usize,
    scratch: usize,
    room: PlanRoom,
) -> Result<(), Refusal>
    requires { nrows ≤ side_limit }
    ensures { result ≡ prepare_room nrows ncols entries row_pointers row_words row_masks column_pointers column_words column_masks starts order region frontier scratch room.pattern.nodes room.pattern.pointers room.pattern.columns room.source_pointers room.sources }
{
    dual_topology::inner::check_room(
        nrows,
        ncols,
        entries,
        row_pointers,
        row_words,
        row_masks,
        column_pointers,
        column_words,
        column_masks,
        starts,
        order,
    )?;
    growth::inner::check_room(nrows, region, frontier, scratch)?;
    // Room for as many members, pairs and sources as there can be.
    let most = Counts {
        members: nrows,
        rows: RowCounts {
            pairs: entries,
            sources: entries,
        },
    };
    numeric_plan::inner::check_room(most, room)
}
