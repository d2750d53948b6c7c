// Replays recorded answers of the original Rust to the calls on the local system of a region: records of 2,160 bytes on standard input,
// each a call, and for each an answer record of 880 bytes on standard output. oracle/README.md says what a record holds, and where, and how
// the records are made.
#![tactic(auto)]

use hybit_matrix::local::{
    PlanAnswer, hybit_extract_local_submatrix_pattern, hybit_gather_values,
    hybit_prepare_local_numeric_plan,
};
use recorded::inner::{Matrix, Recorded, Sides};
use records::inner::{List, number_at, put_list};
use std::io;
use streams::inner::answer_records;

const RECORD_BYTES: usize = 2160;

const ANSWER_BYTES: usize = 880;

// Which call is made is data of who wrote the record: each arm of the matches below is one call.
enum Call {
    Pattern,
    Plan,
    Gather,
}

// By a record's first byte; one that names no call asks for a plan. So no byte is an error, and it is no `TryFrom`.
impl From<u8> for Call {
    fn from(byte: u8) -> Call {
        match byte {
            1 => Call::Pattern,
            3 => Call::Gather,
            _ => Call::Plan,
        }
    }
}

// ---- parts of a record

#[derive(Drop)]
struct Pattern {
    nodes: List<u32, 16>,
    ptr: List<u32, 16>,
    cols: List<u32, 16>,
}

impl Pattern {
    fn read(call: &[u8; RECORD_BYTES]) -> Pattern {
        Pattern {
            nodes: List::read(call, 160, 1392),
            ptr: List::read(call, 168, 1520),
            cols: List::read(call, 176, 1648),
        }
    }

    // The lists that a call may write are put over their whole room: past a list's length a record has zeros, before the call and after it.
    fn put(&self, out: &mut [u8; ANSWER_BYTES]) {
        put_list(out, 112, &self.nodes.room);
        put_list(out, 240, &self.ptr.room);
        put_list(out, 368, &self.cols.room);
    }
}

// The rows and the columns of a topology.
fn sides_of(call: &[u8; RECORD_BYTES]) -> Sides<16> {
    Sides::read(call, 8, 80, 208)
}

// ---- calls

fn answer_pattern(call: &[u8; RECORD_BYTES], out: &mut [u8; ANSWER_BYTES]) {
    let Sides {
        row_shape: a,
        column_shape: b,
        rows,
        columns,
    } = sides_of(call);
    let words: List<u64, 4> = List::read(call, 152, 1360);
    let mut pattern = Pattern::read(call);
    hybit_extract_local_submatrix_pattern(
        a.nrows,
        a.ncols,
        rows.ptr.as_slice(),
        rows.words.as_slice(),
        rows.masks.as_slice(),
        a.pairs,
        b.nrows,
        b.ncols,
        columns.ptr.as_slice(),
        columns.words.as_slice(),
        columns.masks.as_slice(),
        b.pairs,
        number_at(call, 56) as usize,
        words.as_slice(),
        pattern.nodes.as_mut_slice(),
        pattern.ptr.as_mut_slice(),
        pattern.cols.as_mut_slice(),
    )
    .put(out);
    pattern.put(out);
}

// The call of a plan; what it answers is put by `answer_plan`.
fn prepared(
    call: &[u8; RECORD_BYTES],
    pattern: &mut Pattern,
    source_ptr: &mut [u32],
    sources: &mut [u32],
) -> PlanAnswer {
    let Sides {
        row_shape: a,
        column_shape: b,
        rows,
        columns,
    } = sides_of(call);
    let matrix = Matrix::read(call, 128, 976);
    let words: List<u64, 4> = List::read(call, 152, 1360);
    hybit_prepare_local_numeric_plan(
        a.nrows,
        a.ncols,
        rows.ptr.as_slice(),
        rows.words.as_slice(),
        rows.masks.as_slice(),
        a.pairs,
        b.nrows,
        b.ncols,
        columns.ptr.as_slice(),
        columns.words.as_slice(),
        columns.masks.as_slice(),
        b.pairs,
        number_at(call, 56) as usize,
        number_at(call, 64) as usize,
        matrix.row_ptr.as_slice(),
        matrix.col_idx.as_slice(),
        matrix.values.as_slice(),
        number_at(call, 72) as usize,
        words.as_slice(),
        pattern.nodes.as_mut_slice(),
        pattern.ptr.as_mut_slice(),
        pattern.cols.as_mut_slice(),
        source_ptr,
        sources,
    )
}

fn answer_plan(call: &[u8; RECORD_BYTES], out: &mut [u8; ANSWER_BYTES]) {
    let mut pattern = Pattern::read(call);
    let mut source_ptr: List<u32, 16> = List::read(call, 184, 1776);
    let mut sources: List<u32, 16> = List::read(call, 192, 1904);
    prepared(
        call,
        &mut pattern,
        source_ptr.as_mut_slice(),
        sources.as_mut_slice(),
    )
    .put(out);
    pattern.put(out);
    put_list(out, 496, &source_ptr.room);
    put_list(out, 624, &sources.room);
}

fn answer_gather(call: &[u8; RECORD_BYTES], out: &mut [u8; ANSWER_BYTES]) {
    let from = Matrix::read(call, 128, 976);
    let mut gathered: List<f64, 16> = List::read(call, 200, 2032);
    hybit_gather_values(
        from.row_ptr.as_slice(),
        from.col_idx.as_slice(),
        number_at(call, 8) as usize,
        from.values.as_slice(),
        gathered.as_mut_slice(),
    )
    .put(out);
    put_list(out, 752, &gathered.room);
}

// ---- records

fn answer(call: &[u8; RECORD_BYTES], out: &mut [u8; ANSWER_BYTES]) {
    match Call::from(call[0]) {
        Call::Pattern => answer_pattern(call, out),
        Call::Plan => answer_plan(call, out),
        Call::Gather => answer_gather(call, out),
    }
}

// A record and its answer have fixed lengths, and so are arrays; the closure takes slices, as no closure takes an array whose length is a parameter.
fn main(rt: HostRuntime) -> io::Result<()> {
    let mut input = rt.reader();
    let mut output = io::writer(&rt);
    answer_records::<RECORD_BYTES, ANSWER_BYTES, _, _, _>(&mut input, &mut output, |call, out| {
        answer(call.first_chunk().unwrap(), out.first_chunk_mut().unwrap())
    })
}
