// Replays recorded answers of the original Rust to the calls on regions: records of 2,376 bytes on standard input, each a call, and for
// each an answer record of 848 bytes on standard output. oracle/README.md says what a record holds, and where, and how the records are made.
#![tactic(auto)]

use hybit_matrix::regions::{
    hybit_close_to_field_blocks, hybit_field_block_owners, hybit_grow_field_aware_region,
    hybit_grow_undirected_region, hybit_region_multiplicity, hybit_weight,
};
use recorded::inner::{Layout, Recorded, Sides};
use records::inner::{Element, List, number_at, put_list};
use std::io;
use streams::inner::answer_records;

const RECORD_BYTES: usize = 2376;

const ANSWER_BYTES: usize = 848;

// Which call is made is data of who wrote the record: each arm of the matches below is one call.
enum Call {
    Growth,
    Multiplicity,
    Weight,
    Closing,
    FieldGrowth,
    Owners,
}

// By a record's first byte; one that names no call asks for a field growth. So no byte is an error, and it is no `TryFrom`.
impl From<u8> for Call {
    fn from(byte: u8) -> Call {
        match byte {
            1 => Call::Growth,
            2 => Call::Multiplicity,
            3 => Call::Weight,
            4 => Call::Closing,
            6 => Call::Owners,
            _ => Call::FieldGrowth,
        }
    }
}

// ---- parts of a record

// The masks that a growth writes.
#[derive(Drop)]
struct Masks {
    region: List<u64, 4>,
    frontier: List<u64, 4>,
    scratch: List<u64, 4>,
}

impl Masks {
    fn read(call: &[u8; RECORD_BYTES]) -> Masks {
        Masks {
            region: List::read(call, 168, 1640),
            frontier: List::read(call, 176, 1672),
            scratch: List::read(call, 184, 1704),
        }
    }

    fn put(&self, out: &mut [u8; ANSWER_BYTES]) {
        put_list(out, 112, self.region.as_slice());
        put_list(out, 144, self.frontier.as_slice());
        put_list(out, 176, self.scratch.as_slice());
    }
}

// The rows and the columns of a topology.
fn sides_of(call: &[u8; RECORD_BYTES]) -> Sides<16> {
    Sides::read(call, 8, 72, 200)
}

// ---- growth

fn growth(call: &[u8; RECORD_BYTES], out: &mut [u8; ANSWER_BYTES]) {
    let Sides {
        row_shape: a,
        column_shape: b,
        rows,
        columns,
    } = sides_of(call);
    let words: List<u64, 4> = List::read(call, 160, 1608);
    let mut masks = Masks::read(call);
    hybit_grow_undirected_region(
        a.nrows,
        a.ncols,
        rows.ptr.as_slice(),
        rows.words.as_slice(),
        rows.masks.as_slice(),
        a.pairs,
        b.nrows,
        b.ncols,
        columns.ptr.as_slice(),
        columns.words.as_slice(),
        columns.masks.as_slice(),
        b.pairs,
        number_at(call, 56) as usize,
        words.as_slice(),
        number_at(call, 64),
        masks.region.as_mut_slice(),
        masks.frontier.as_mut_slice(),
        masks.scratch.as_mut_slice(),
    )
    .put(out);
    masks.put(out);
}

fn field_growth(call: &[u8; RECORD_BYTES], out: &mut [u8; ANSWER_BYTES]) {
    let Sides {
        row_shape: a,
        column_shape: b,
        rows,
        columns,
    } = sides_of(call);
    let layout = Layout::read(call, 120, 968);
    let words: List<u64, 4> = List::read(call, 160, 1608);
    let mut masks = Masks::read(call);
    hybit_grow_field_aware_region(
        a.nrows,
        a.ncols,
        rows.ptr.as_slice(),
        rows.words.as_slice(),
        rows.masks.as_slice(),
        a.pairs,
        b.nrows,
        b.ncols,
        columns.ptr.as_slice(),
        columns.words.as_slice(),
        columns.masks.as_slice(),
        b.pairs,
        layout.kinds.as_slice(),
        layout.ids.as_slice(),
        layout.fields.as_slice(),
        layout.sizes.as_slice(),
        layout.offsets.as_slice(),
        number_at(call, 56) as usize,
        words.as_slice(),
        number_at(call, 64),
        masks.region.as_mut_slice(),
        masks.frontier.as_mut_slice(),
        masks.scratch.as_mut_slice(),
    )
    .put(out);
    masks.put(out);
}

// ---- blocks

fn closing(call: &[u8; RECORD_BYTES], out: &mut [u8; ANSWER_BYTES]) {
    let layout = Layout::read(call, 120, 968);
    let words: List<u64, 4> = List::read(call, 160, 1608);
    let mut closed: List<u64, 4> = List::read(call, 168, 1640);
    hybit_close_to_field_blocks(
        layout.kinds.as_slice(),
        layout.ids.as_slice(),
        layout.fields.as_slice(),
        layout.sizes.as_slice(),
        layout.offsets.as_slice(),
        number_at(call, 8) as usize,
        words.as_slice(),
        closed.as_mut_slice(),
    )
    .put(out);
    put_list(out, 112, closed.as_slice());
}

fn owners(call: &[u8; RECORD_BYTES], out: &mut [u8; ANSWER_BYTES]) {
    let layout = Layout::read(call, 120, 968);
    let dof_owners: List<u32, 16> = List::read(call, 72, 200);
    let mut found: List<u32, 80> = List::read(call, 192, 1736);
    hybit_field_block_owners(
        layout.kinds.as_slice(),
        layout.ids.as_slice(),
        layout.fields.as_slice(),
        layout.sizes.as_slice(),
        layout.offsets.as_slice(),
        dof_owners.as_slice(),
        u32::of(number_at(call, 8)),
        found.as_mut_slice(),
    )
    .put(out);
    put_list(out, 208, found.as_slice());
}

// ---- several regions

fn multiplicity(call: &[u8; RECORD_BYTES], out: &mut [u8; ANSWER_BYTES]) {
    let words: List<u64, 16> = List::read(call, 88, 456);
    let mut counts: List<u32, 80> = List::read(call, 192, 1736);
    hybit_region_multiplicity(
        number_at(call, 8) as usize,
        number_at(call, 16) as usize,
        words.as_slice(),
        counts.as_mut_slice(),
    )
    .put(out);
    put_list(out, 208, counts.as_slice());
}

fn weight(call: &[u8; RECORD_BYTES], out: &mut [u8; ANSWER_BYTES]) {
    let words: List<u64, 16> = List::read(call, 88, 456);
    hybit_weight(
        number_at(call, 8) as usize,
        number_at(call, 16) as usize,
        words.as_slice(),
        number_at(call, 24),
        number_at(call, 32),
    )
    .put(out);
}

// ---- records

fn answer(call: &[u8; RECORD_BYTES], out: &mut [u8; ANSWER_BYTES]) {
    match Call::from(call[0]) {
        Call::Growth => growth(call, out),
        Call::Multiplicity => multiplicity(call, out),
        Call::Weight => weight(call, out),
        Call::Closing => closing(call, out),
        Call::FieldGrowth => field_growth(call, out),
        Call::Owners => owners(call, out),
    }
}

// A record and its answer have fixed lengths, and so are arrays; the closure takes slices, as no closure takes an array whose length is a parameter.
fn main(rt: HostRuntime) -> io::Result<()> {
    let mut input = rt.reader();
    let mut output = io::writer(&rt);
    answer_records::<RECORD_BYTES, ANSWER_BYTES, _, _, _>(&mut input, &mut output, |call, out| {
        answer(call.first_chunk().unwrap(), out.first_chunk_mut().unwrap())
    })
}
