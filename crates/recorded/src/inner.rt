// An answer's numbers, in the order of the fields of its C record, each of 8 bytes; and what several calls take of a record.
ghost use Rattle.std.specs.Prelude.{◌≡◌, ℕ, ◌+◌, ◌*◌, ◌%◌, ◌<◌, ◌≤◌, List as List·List, [], ◌∷◌, from_bits, to_bits, length};
ghost use Rattle.std.specs.Float.{binary64};
ghost use Rattle.base.specs.Lists.{placed};
ghost use Rattle.base.specs.Sets.{one_if};
ghost use Rattle.records.specs.Bytes.{ListAt, bytes_of, number_at as number_read};

use hybit_matrix::both_sides::{BuildAnswer, DualStatsAnswer};
use hybit_matrix::local::{PatternAnswer, PlanAnswer};
use hybit_matrix::one_side::TopologyStatsAnswer;
use hybit_matrix::regions::{FieldGrowthAnswer, GrowthAnswer, MultiplicityAnswer};
use hybit_matrix::{Answer, PairAnswer};
use records::inner::{List, number_at, put_list};
use std::num::f64_to_bits_with_nan;

// The numbers: number, present (0 or 1), expected, actual, then the values, of a float its bits.
pub trait Recorded: Copy {
    ghost numbers: { Self → List·List ℕ };

    // Puts them at the front of the answer's record.
    fn put(self, out: &mut [u8])
        requires { 8 * length (numbers self) ≤ length out.old }
        ensures { out.new ≡ placed 0 (bytes_of (numbers self) (8 * length (numbers self))) out.old };
}

// The impls are alike but for the fields that they name: the C interface gives each answer a flat record of its own.
impl Recorded for Answer {
    ghost numbers = { λ a. a.number ∷ one_if a.present ∷ a.expected ∷ a.actual ∷ a.value ∷ [] };

    fn put(self, out: &mut [u8]) {
        put_list(
            out,
            0,
            &[
                self.number as u64,
                u64::from(self.present),
                self.expected,
                self.actual,
                self.value,
            ],
        );
    }
}

impl Recorded for PairAnswer {
    ghost numbers = { λ a. a.number ∷ one_if a.present ∷ a.expected ∷ a.actual ∷ a.first ∷ a.second ∷ [] };

    fn put(self, out: &mut [u8]) {
        put_list(
            out,
            0,
            &[
                self.number as u64,
                u64::from(self.present),
                self.expected,
                self.actual,
                self.first,
                self.second,
            ],
        );
    }
}

impl Recorded for TopologyStatsAnswer {
    ghost numbers = { λ a. a.number ∷ one_if a.present ∷ a.expected ∷ a.actual ∷ a.nrows ∷ a.ncols ∷ a.structural_nnz ∷ a.nonempty_words ∷ a.metadata_bytes ∷ to_bits binary64 a.average_word_nnz ∷ to_bits binary64 a.word_fill_ratio ∷ to_bits binary64 a.metadata_bytes_per_nnz ∷ [] };

    fn put(self, out: &mut [u8]) {
        put_list(
            out,
            0,
            &[
                self.number as u64,
                u64::from(self.present),
                self.expected,
                self.actual,
                self.nrows,
                self.ncols,
                self.structural_nnz,
                self.nonempty_words,
                self.metadata_bytes,
                f64_to_bits_with_nan(self.average_word_nnz),
                f64_to_bits_with_nan(self.word_fill_ratio),
                f64_to_bits_with_nan(self.metadata_bytes_per_nnz),
            ],
        );
    }
}

impl Recorded for BuildAnswer {
    ghost numbers = { λ a. a.number ∷ one_if a.present ∷ a.expected ∷ a.actual ∷ a.row_words ∷ a.column_words ∷ a.pairs ∷ [] };

    fn put(self, out: &mut [u8]) {
        put_list(
            out,
            0,
            &[
                self.number as u64,
                u64::from(self.present),
                self.expected,
                self.actual,
                self.row_words,
                self.column_words,
                self.pairs,
            ],
        );
    }
}

impl Recorded for DualStatsAnswer {
    ghost numbers = { λ a. a.number ∷ one_if a.present ∷ a.expected ∷ a.actual ∷ a.nrows ∷ a.ncols ∷ a.structural_nnz ∷ a.row_metadata_bytes ∷ a.column_metadata_bytes ∷ a.total_metadata_bytes ∷ to_bits binary64 a.metadata_bytes_per_nnz ∷ [] };

    fn put(self, out: &mut [u8]) {
        put_list(
            out,
            0,
            &[
                self.number as u64,
                u64::from(self.present),
                self.expected,
                self.actual,
                self.nrows,
                self.ncols,
                self.structural_nnz,
                self.row_metadata_bytes,
                self.column_metadata_bytes,
                self.total_metadata_bytes,
                f64_to_bits_with_nan(self.metadata_bytes_per_nnz),
            ],
        );
    }
}

impl Recorded for GrowthAnswer {
    ghost numbers = { λ a. a.number ∷ one_if a.present ∷ a.expected ∷ a.actual ∷ a.hops_requested ∷ a.hops_completed ∷ a.seed_nodes ∷ a.region_nodes ∷ a.frontier_nodes_visited ∷ a.row_words_visited ∷ a.column_words_visited ∷ a.candidate_neighbor_bits ∷ a.topology_words_visited ∷ a.new_nodes ∷ [] };

    fn put(self, out: &mut [u8]) {
        put_list(
            out,
            0,
            &[
                self.number as u64,
                u64::from(self.present),
                self.expected,
                self.actual,
                self.hops_requested,
                self.hops_completed,
                self.seed_nodes,
                self.region_nodes,
                self.frontier_nodes_visited,
                self.row_words_visited,
                self.column_words_visited,
                self.candidate_neighbor_bits,
                self.topology_words_visited,
                self.new_nodes,
            ],
        );
    }
}

impl Recorded for FieldGrowthAnswer {
    ghost numbers = { λ a. a.number ∷ one_if a.present ∷ a.expected ∷ a.actual ∷ a.hops_requested ∷ a.hops_completed ∷ a.seed_dofs ∷ a.block_closed_seed_dofs ∷ a.region_dofs ∷ a.region_blocks ∷ a.frontier_dofs_visited ∷ a.row_words_visited ∷ a.column_words_visited ∷ a.candidate_neighbor_bits ∷ [] };

    fn put(self, out: &mut [u8]) {
        put_list(
            out,
            0,
            &[
                self.number as u64,
                u64::from(self.present),
                self.expected,
                self.actual,
                self.hops_requested,
                self.hops_completed,
                self.seed_dofs,
                self.block_closed_seed_dofs,
                self.region_dofs,
                self.region_blocks,
                self.frontier_dofs_visited,
                self.row_words_visited,
                self.column_words_visited,
                self.candidate_neighbor_bits,
            ],
        );
    }
}

impl Recorded for MultiplicityAnswer {
    ghost numbers = { λ a. a.number ∷ one_if a.present ∷ a.expected ∷ a.actual ∷ a.region_count ∷ a.node_count ∷ a.total_memberships ∷ a.covered_nodes ∷ a.overlap_nodes ∷ a.max_multiplicity ∷ a.pair_overlap_memberships ∷ a.extra_memberships ∷ to_bits binary64 a.average_multiplicity_on_covered ∷ to_bits binary64 a.overlap_fraction_on_covered ∷ [] };

    fn put(self, out: &mut [u8]) {
        put_list(
            out,
            0,
            &[
                self.number as u64,
                u64::from(self.present),
                self.expected,
                self.actual,
                self.region_count,
                self.node_count,
                self.total_memberships,
                self.covered_nodes,
                self.overlap_nodes,
                self.max_multiplicity,
                self.pair_overlap_memberships,
                self.extra_memberships,
                f64_to_bits_with_nan(self.average_multiplicity_on_covered),
                f64_to_bits_with_nan(self.overlap_fraction_on_covered),
            ],
        );
    }
}

impl Recorded for PatternAnswer {
    ghost numbers = { λ a. a.number ∷ one_if a.present ∷ a.expected ∷ a.actual ∷ a.global_nodes ∷ a.local_nodes ∷ a.local_nnz ∷ a.topology_words_visited ∷ a.candidate_neighbor_bits ∷ a.kept_neighbor_bits ∷ a.mapping_scratch_bytes ∷ a.pattern_bytes ∷ to_bits binary64 a.structural_pruning_ratio ∷ to_bits binary64 a.average_local_row_nnz ∷ [] };

    fn put(self, out: &mut [u8]) {
        put_list(
            out,
            0,
            &[
                self.number as u64,
                u64::from(self.present),
                self.expected,
                self.actual,
                self.global_nodes,
                self.local_nodes,
                self.local_nnz,
                self.topology_words_visited,
                self.candidate_neighbor_bits,
                self.kept_neighbor_bits,
                self.mapping_scratch_bytes,
                self.pattern_bytes,
                f64_to_bits_with_nan(self.structural_pruning_ratio),
                f64_to_bits_with_nan(self.average_local_row_nnz),
            ],
        );
    }
}

impl Recorded for PlanAnswer {
    ghost numbers = { λ a. a.number ∷ one_if a.present ∷ a.expected ∷ a.actual ∷ a.local_nodes ∷ a.local_nnz ∷ a.source_terms ∷ a.duplicate_source_terms ∷ one_if a.direct_source_map ∷ a.plan_bytes ∷ [] };

    fn put(self, out: &mut [u8]) {
        put_list(
            out,
            0,
            &[
                self.number as u64,
                u64::from(self.present),
                self.expected,
                self.actual,
                self.local_nodes,
                self.local_nnz,
                self.source_terms,
                self.duplicate_source_terms,
                u64::from(self.direct_source_map),
                self.plan_bytes,
            ],
        );
    }
}

// Rows, columns and pairs of a side, as a record gives them.
#[derive(Clone, Copy)]
pub struct Shape {
    pub nrows: usize,
    pub ncols: usize,
    pub pairs: usize,
}

impl Shape {
    // The three numbers from `at` on.
    pub fn read(call: &[u8], at: usize) -> Shape
        requires { at + 24 ≤ length call.now }
        ensures { result ≡ record { nrows = number_read call.now at; ncols = number_read call.now (at + 8); pairs = number_read call.now (at + 16) } }
    {
        Shape {
            nrows: number_at(call, at) as usize,
            ncols: number_at(call, at + 8) as usize,
            pairs: number_at(call, at + 16) as usize,
        }
    }
}

// The rows of a topology, or its columns.
#[derive(Drop)]
pub struct Side<const P: usize> {
    pub ptr: List<u32, P>,
    pub words: List<u32, 16>,
    pub masks: List<u64, 16>,
}

impl<const P: usize> Side<P> {
    // The side whose lengths stand from `counts` on, its starts at `ptr`, and its words and masks from `words` on.
    pub fn read(call: &[u8], counts: usize, ptr: usize, words: usize) -> Side<P>
        requires fits { P < 1048576 }
        requires stand { (counts + 24 ≤ length call.now) × (ptr + 8 * P ≤ length call.now) × (words + 256 ≤ length call.now) }
        ensures ptr { ListAt (λ n. n % 4294967296) P call.now counts ptr result.ptr.room result.ptr.count }
        ensures words { ListAt (λ n. n % 4294967296) 16 call.now (counts + 8) words result.words.room result.words.count }
        ensures masks { ListAt (λ n. n) 16 call.now (counts + 16) (words + 128) result.masks.room result.masks.count }
    {
        Side {
            ptr: List::read(call, counts, ptr),
            words: List::read(call, counts + 8, words),
            masks: List::read(call, counts + 16, words + 128),
        }
    }
}

// The rows and the columns of a topology, or two sides that a call takes, with their numbers.
#[derive(Drop)]
pub struct Sides<const P: usize> {
    pub row_shape: Shape,
    pub column_shape: Shape,
    pub rows: Side<16>,
    pub columns: Side<P>,
}

impl<const P: usize> Sides<P> {
    // The sides whose numbers stand from `numbers` on, their lengths from `counts` on, and their lists one behind the other from `at` on.
    pub fn read(call: &[u8], numbers: usize, counts: usize, at: usize) -> Sides<P>
        requires fits { P < 1048576 }
        requires stand { (numbers + 48 ≤ length call.now) × (counts + 48 ≤ length call.now) × (at + 640 + 8 * P ≤ length call.now) }
        ensures row_shape { result.row_shape ≡ record { nrows = number_read call.now numbers; ncols = number_read call.now (numbers + 8); pairs = number_read call.now (numbers + 16) } }
        ensures column_shape { result.column_shape ≡ record { nrows = number_read call.now (numbers + 24); ncols = number_read call.now (numbers + 24 + 8); pairs = number_read call.now (numbers + 24 + 16) } }
        ensures row_ptr { ListAt (λ n. n % 4294967296) 16 call.now counts at result.rows.ptr.room result.rows.ptr.count }
        ensures row_words { ListAt (λ n. n % 4294967296) 16 call.now (counts + 8) (at + 128) result.rows.words.room result.rows.words.count }
        ensures row_masks { ListAt (λ n. n) 16 call.now (counts + 16) (at + 128 + 128) result.rows.masks.room result.rows.masks.count }
        ensures column_ptr { ListAt (λ n. n % 4294967296) P call.now (counts + 24) (at + 384) result.columns.ptr.room result.columns.ptr.count }
        ensures column_words { ListAt (λ n. n % 4294967296) 16 call.now (counts + 24 + 8) (at + 384 + 8 * P) result.columns.words.room result.columns.words.count }
        ensures column_masks { ListAt (λ n. n) 16 call.now (counts + 24 + 16) (at + 384 + 8 * P + 128) result.columns.masks.room result.columns.masks.count }
    {
        Sides {
            row_shape: Shape::read(call, numbers),
            column_shape: Shape::read(call, numbers + 24),
            rows: Side::read(call, counts, at, at + 128),
            columns: Side::read(call, counts + 24, at + 384, at + 384 + 8 * P),
        }
    }
}

// A matrix, or what a gather takes: where its pairs' sources begin, the sources and the values.
#[derive(Drop)]
pub struct Matrix {
    pub row_ptr: List<u32, 16>,
    pub col_idx: List<u32, 16>,
    pub values: List<f64, 16>,
}

impl Matrix {
    // The matrix whose lengths stand from `counts` on, and its lists from `at` on.
    pub fn read(call: &[u8], counts: usize, at: usize) -> Matrix
        requires { (counts + 24 ≤ length call.now) × (at + 384 ≤ length call.now) }
        ensures row_ptr { ListAt (λ n. n % 4294967296) 16 call.now counts at result.row_ptr.room result.row_ptr.count }
        ensures col_idx { ListAt (λ n. n % 4294967296) 16 call.now (counts + 8) (at + 128) result.col_idx.room result.col_idx.count }
        ensures values { ListAt (from_bits binary64) 16 call.now (counts + 16) (at + 256) result.values.room result.values.count }
    {
        Matrix {
            row_ptr: List::read(call, counts, at),
            col_idx: List::read(call, counts + 8, at + 128),
            values: List::read(call, counts + 16, at + 256),
        }
    }
}

#[derive(Drop)]
pub struct Layout {
    pub kinds: List<u8, 16>,
    pub ids: List<u64, 16>,
    pub fields: List<u32, 16>,
    pub sizes: List<u32, 16>,
    pub offsets: List<u64, 16>,
}

impl Layout {
    // The layout whose lengths stand from `counts` on, and its lists from `at` on.
    pub fn read(call: &[u8], counts: usize, at: usize) -> Layout
        requires { (counts + 40 ≤ length call.now) × (at + 640 ≤ length call.now) }
        ensures kinds { ListAt (λ n. n % 256) 16 call.now counts at result.kinds.room result.kinds.count }
        ensures ids { ListAt (λ n. n) 16 call.now (counts + 8) (at + 128) result.ids.room result.ids.count }
        ensures fields { ListAt (λ n. n % 4294967296) 16 call.now (counts + 16) (at + 256) result.fields.room result.fields.count }
        ensures sizes { ListAt (λ n. n % 4294967296) 16 call.now (counts + 24) (at + 384) result.sizes.room result.sizes.count }
        ensures offsets { ListAt (λ n. n) 16 call.now (counts + 32) (at + 512) result.offsets.room result.offsets.count }
    {
        Layout {
            kinds: List::read(call, counts, at),
            ids: List::read(call, counts + 8, at + 128),
            fields: List::read(call, counts + 16, at + 256),
            sizes: List::read(call, counts + 24, at + 384),
            offsets: List::read(call, counts + 32, at + 512),
        }
    }
}
