// Replays recorded answers of the original Rust to the calls on topologies: records of 4,648 bytes on standard input, each a call, and for
// each an answer record of 3,168 bytes on standard output. oracle/README.md says what a record holds, and where, and how the records are
// made.
#![tactic(auto)]

ghost use Rattle.std.specs.Prelude.{◌≡◌, length};

use hybit_matrix::both_sides::{
    hybit_dual_topology_from_csr32, hybit_dual_topology_stats, hybit_dual_topology_validate,
    hybit_row_contains, hybit_row_popcount, hybit_row_rank, hybit_row_select, hybit_row_word,
    hybit_row_words,
};
use hybit_matrix::one_side::{
    hybit_topology_and_not, hybit_topology_from_csr32, hybit_topology_intersection,
    hybit_topology_stats, hybit_topology_union, hybit_topology_validate, hybit_topology_xor,
};
use recorded::inner::{Matrix, Recorded, Shape, Side, Sides};
use records::inner::{List, number_at, put_list};
use std::io;
use streams::inner::answer_records;

const RECORD_BYTES: usize = 4648;

const ANSWER_BYTES: usize = 3168;

// ---- calls

// A record's byte names its call: which call is made is data of who wrote the record, and each arm of the matches below is one call by its C name.
enum SetCall {
    Intersection,
    Union,
    AndNot,
    Xor,
}

enum RowCall {
    Words,
    Popcount,
    Contains,
    Rank,
    Select,
}

enum Call {
    Validate,
    Stats,
    FromMatrix,
    Set(SetCall),
    DualValidate,
    DualStats,
    DualFromMatrix,
    Row(RowCall),
    RowWord,
}

// By a record's first byte; one that names no call asks for a row's select. So no byte is an error, and it is no `TryFrom`.
impl From<u8> for Call {
    fn from(byte: u8) -> Call {
        match byte {
            1 => Call::Validate,
            2 => Call::Stats,
            3 => Call::FromMatrix,
            4 => Call::Set(SetCall::Intersection),
            5 => Call::Set(SetCall::Union),
            6 => Call::Set(SetCall::AndNot),
            7 => Call::Set(SetCall::Xor),
            8 => Call::DualValidate,
            9 => Call::DualStats,
            10 => Call::DualFromMatrix,
            11 => Call::Row(RowCall::Words),
            12 => Call::Row(RowCall::Popcount),
            13 => Call::Row(RowCall::Contains),
            14 => Call::Row(RowCall::Rank),
            16 => Call::RowWord,
            _ => Call::Row(RowCall::Select),
        }
    }
}

// ---- parts of a record

fn rows_of(call: &[u8; RECORD_BYTES]) -> Side<16> {
    Side::read(call, 80, 168, 296)
}

// The rows and the columns of a topology, or the two sides of a set operation.
fn sides_of(call: &[u8; RECORD_BYTES]) -> Sides<144> {
    Sides::read(call, 8, 80, 168)
}

fn lists<const P: usize>(side: &Side<P>) -> (&[u32], &[u32], &[u64]) {
    (
        side.ptr.as_slice(),
        side.words.as_slice(),
        side.masks.as_slice(),
    )
}

// The first three lists that a call may write.
fn put_side(out: &mut [u8; ANSWER_BYTES], side: &Side<16>) {
    put_list(out, 96, side.ptr.as_slice());
    put_list(out, 224, side.words.as_slice());
    put_list(out, 352, side.masks.as_slice());
}

// ---- one side

// Checks and statistics, of one side and of both, differ in the call that they make alone: C names each, and each answers a record of its own.

fn validate(call: &[u8; RECORD_BYTES], out: &mut [u8; ANSWER_BYTES]) {
    let a = Shape::read(call, 8);
    let side = rows_of(call);
    let (ptr, words, masks) = lists(&side);
    hybit_topology_validate(a.nrows, a.ncols, ptr, words, masks, a.pairs).put(out);
}

fn stats(call: &[u8; RECORD_BYTES], out: &mut [u8; ANSWER_BYTES]) {
    let a = Shape::read(call, 8);
    let side = rows_of(call);
    let (ptr, words, masks) = lists(&side);
    hybit_topology_stats(a.nrows, a.ncols, ptr, words, masks, a.pairs).put(out);
}

// ---- building from a matrix

fn from_matrix(call: &[u8; RECORD_BYTES], out: &mut [u8; ANSWER_BYTES]) {
    let a = Shape::read(call, 8);
    let matrix = Matrix::read(call, 80, 168);
    let mut rows: Side<16> = Side::read(call, 104, 552, 1704);
    hybit_topology_from_csr32(
        a.nrows,
        a.ncols,
        matrix.row_ptr.as_slice(),
        matrix.col_idx.as_slice(),
        matrix.values.as_slice(),
        rows.ptr.as_mut_slice(),
        rows.words.as_mut_slice(),
        rows.masks.as_mut_slice(),
    )
    .put(out);
    put_side(out, &rows);
}

fn dual_from_matrix(call: &[u8; RECORD_BYTES], out: &mut [u8; ANSWER_BYTES]) {
    let a = Shape::read(call, 8);
    let matrix = Matrix::read(call, 80, 168);
    let mut rows: Side<16> = Side::read(call, 104, 552, 1704);
    let mut columns: Side<144> = Side::read(call, 128, 1960, 3112);
    let mut starts: List<u32, 144> = List::read(call, 152, 3368);
    let mut order: List<u32, 16> = List::read(call, 160, 4520);
    hybit_dual_topology_from_csr32(
        a.nrows,
        a.ncols,
        matrix.row_ptr.as_slice(),
        matrix.col_idx.as_slice(),
        matrix.values.as_slice(),
        rows.ptr.as_mut_slice(),
        rows.words.as_mut_slice(),
        rows.masks.as_mut_slice(),
        columns.ptr.as_mut_slice(),
        columns.words.as_mut_slice(),
        columns.masks.as_mut_slice(),
        starts.as_mut_slice(),
        order.as_mut_slice(),
    )
    .put(out);
    put_side(out, &rows);
    put_list(out, 480, columns.ptr.as_slice());
    put_list(out, 1632, columns.words.as_slice());
    put_list(out, 1760, columns.masks.as_slice());
    put_list(out, 1888, starts.as_slice());
    put_list(out, 3040, order.as_slice());
}

// ---- two sides

fn set_operation(set: SetCall, call: &[u8; RECORD_BYTES], out: &mut [u8; ANSWER_BYTES]) {
    let sides = sides_of(call);
    let (a, b) = (sides.row_shape, sides.column_shape);
    let (ptr_a, words_a, masks_a) = lists(&sides.rows);
    let (ptr_b, words_b, masks_b) = lists(&sides.columns);
    let mut side: Side<16> = Side::read(call, 128, 1960, 3112);
    let ptr = side.ptr.as_mut_slice();
    let words = side.words.as_mut_slice();
    let masks = side.masks.as_mut_slice();
    match set {
        SetCall::Intersection => hybit_topology_intersection(
            a.nrows, a.ncols, ptr_a, words_a, masks_a, a.pairs, b.nrows, b.ncols, ptr_b, words_b,
            masks_b, b.pairs, ptr, words, masks,
        ),
        SetCall::Union => hybit_topology_union(
            a.nrows, a.ncols, ptr_a, words_a, masks_a, a.pairs, b.nrows, b.ncols, ptr_b, words_b,
            masks_b, b.pairs, ptr, words, masks,
        ),
        SetCall::AndNot => hybit_topology_and_not(
            a.nrows, a.ncols, ptr_a, words_a, masks_a, a.pairs, b.nrows, b.ncols, ptr_b, words_b,
            masks_b, b.pairs, ptr, words, masks,
        ),
        SetCall::Xor => hybit_topology_xor(
            a.nrows, a.ncols, ptr_a, words_a, masks_a, a.pairs, b.nrows, b.ncols, ptr_b, words_b,
            masks_b, b.pairs, ptr, words, masks,
        ),
    }
    .put(out);
    put_side(out, &side);
}

fn dual_validate(call: &[u8; RECORD_BYTES], out: &mut [u8; ANSWER_BYTES]) {
    let sides = sides_of(call);
    let (a, b) = (sides.row_shape, sides.column_shape);
    let (ptr_a, words_a, masks_a) = lists(&sides.rows);
    let (ptr_b, words_b, masks_b) = lists(&sides.columns);
    hybit_dual_topology_validate(
        a.nrows, a.ncols, ptr_a, words_a, masks_a, a.pairs, b.nrows, b.ncols, ptr_b, words_b,
        masks_b, b.pairs,
    )
    .put(out);
}

fn dual_stats(call: &[u8; RECORD_BYTES], out: &mut [u8; ANSWER_BYTES]) {
    let sides = sides_of(call);
    let (a, b) = (sides.row_shape, sides.column_shape);
    let (ptr_a, words_a, masks_a) = lists(&sides.rows);
    let (ptr_b, words_b, masks_b) = lists(&sides.columns);
    hybit_dual_topology_stats(
        a.nrows, a.ncols, ptr_a, words_a, masks_a, a.pairs, b.nrows, b.ncols, ptr_b, words_b,
        masks_b, b.pairs,
    )
    .put(out);
}

fn row_call(row: RowCall, call: &[u8; RECORD_BYTES], out: &mut [u8; ANSWER_BYTES]) {
    let sides = sides_of(call);
    let (a, b) = (sides.row_shape, sides.column_shape);
    let (ptr_a, words_a, masks_a) = lists(&sides.rows);
    let (ptr_b, words_b, masks_b) = lists(&sides.columns);
    let columns = number_at(call, 56) != 0;
    let number = number_at(call, 64);
    let k = number_at(call, 72);
    match row {
        RowCall::Words => hybit_row_words(
            a.nrows, a.ncols, ptr_a, words_a, masks_a, a.pairs, b.nrows, b.ncols, ptr_b, words_b,
            masks_b, b.pairs, columns, number,
        ),
        RowCall::Popcount => hybit_row_popcount(
            a.nrows, a.ncols, ptr_a, words_a, masks_a, a.pairs, b.nrows, b.ncols, ptr_b, words_b,
            masks_b, b.pairs, columns, number,
        ),
        RowCall::Contains => hybit_row_contains(
            a.nrows, a.ncols, ptr_a, words_a, masks_a, a.pairs, b.nrows, b.ncols, ptr_b, words_b,
            masks_b, b.pairs, columns, number, k,
        ),
        RowCall::Rank => hybit_row_rank(
            a.nrows, a.ncols, ptr_a, words_a, masks_a, a.pairs, b.nrows, b.ncols, ptr_b, words_b,
            masks_b, b.pairs, columns, number, k,
        ),
        RowCall::Select => hybit_row_select(
            a.nrows, a.ncols, ptr_a, words_a, masks_a, a.pairs, b.nrows, b.ncols, ptr_b, words_b,
            masks_b, b.pairs, columns, number, k,
        ),
    }
    .put(out);
}

// Apart from the other calls on a row, since it answers a record of two numbers.
fn row_word(call: &[u8; RECORD_BYTES], out: &mut [u8; ANSWER_BYTES]) {
    let sides = sides_of(call);
    let (a, b) = (sides.row_shape, sides.column_shape);
    let (ptr_a, words_a, masks_a) = lists(&sides.rows);
    let (ptr_b, words_b, masks_b) = lists(&sides.columns);
    let columns = number_at(call, 56) != 0;
    let number = number_at(call, 64);
    let k = number_at(call, 72);
    hybit_row_word(
        a.nrows, a.ncols, ptr_a, words_a, masks_a, a.pairs, b.nrows, b.ncols, ptr_b, words_b,
        masks_b, b.pairs, columns, number, k,
    )
    .put(out);
}

// ---- records

fn answer(call: &[u8; RECORD_BYTES], out: &mut [u8; ANSWER_BYTES]) {
    match Call::from(call[0]) {
        Call::Validate => validate(call, out),
        Call::Stats => stats(call, out),
        Call::FromMatrix => from_matrix(call, out),
        Call::Set(set) => set_operation(set, call, out),
        Call::DualValidate => dual_validate(call, out),
        Call::DualStats => dual_stats(call, out),
        Call::DualFromMatrix => dual_from_matrix(call, out),
        Call::Row(row) => row_call(row, call, out),
        Call::RowWord => row_word(call, out),
    }
}

// The same of slices, as which both are handed in: no closure takes an array whose length is a parameter. Written as a closure, as in the other
// programs that replay records, the check did not find that both arrays are there.
fn answer_slices(call: &[u8], out: &mut [u8])
    requires { (length call.now ≡ RECORD_BYTES) × (length out.old ≡ ANSWER_BYTES) }
{
    answer(call.first_chunk().unwrap(), out.first_chunk_mut().unwrap())
}

fn main(rt: HostRuntime) -> io::Result<()> {
    let mut input = rt.reader();
    let mut output = io::writer(&rt);
    answer_records::<RECORD_BYTES, ANSWER_BYTES, _, _, _>(&mut input, &mut output, answer_slices)
}
