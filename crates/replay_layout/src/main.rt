// Replays recorded answers of the original Rust to the calls of a layout: records of 856 bytes on standard input, each a call, and for each
// an answer record of 176 bytes on standard output. oracle/README.md says what a record holds, and where, and how the records are made.
#![tactic(auto)]

use hybit_matrix::layout::{
    hybit_kind_of, hybit_layout_block_range, hybit_layout_check, hybit_layout_field_mask,
    hybit_layout_locate, hybit_layout_new, hybit_layout_total_dofs,
    hybit_layout_validate_square_matrix_size,
};
use recorded::inner::{Layout, Recorded};
use records::inner::{Element, List, number_at, put_list};
use std::io;
use streams::inner::answer_records;

const RECORD_BYTES: usize = 856;

const ANSWER_BYTES: usize = 176;

// Which call is made is data of who wrote the record: each arm of the matches below is one call.
enum Call {
    KindOf,
    New,
    Check,
    TotalDofs,
    BlockRange,
    Locate,
    SquareMatrixSize,
    FieldMask,
}

// By a record's first byte; one that names no call asks for the size of a square matrix. So no byte is an error, and it is no `TryFrom`.
impl From<u8> for Call {
    fn from(byte: u8) -> Call {
        match byte {
            1 => Call::KindOf,
            2 => Call::New,
            3 => Call::Check,
            4 => Call::TotalDofs,
            5 => Call::BlockRange,
            6 => Call::Locate,
            8 => Call::FieldMask,
            _ => Call::SquareMatrixSize,
        }
    }
}

fn answer(call: &[u8; RECORD_BYTES], out: &mut [u8; ANSWER_BYTES]) {
    let a = number_at(call, 8);
    let b = number_at(call, 16);
    let low = u32::of(a);
    let layout = Layout::read(call, 40, 88);
    let kinds = layout.kinds.as_slice();
    let ids = layout.ids.as_slice();
    let fields = layout.fields.as_slice();
    let sizes = layout.sizes.as_slice();
    let offsets = layout.offsets.as_slice();
    let mut list: List<u64, 16> = List::read(call, 80, 728);
    match Call::from(call[0]) {
        Call::KindOf => hybit_kind_of(low).put(out),
        Call::New => {
            hybit_layout_new(kinds, ids, fields, sizes, list.as_mut_slice()).put(out);
            put_list(out, 48, list.as_slice());
        }
        Call::Check => hybit_layout_check(kinds, ids, fields, sizes, offsets).put(out),
        Call::TotalDofs => hybit_layout_total_dofs(kinds, ids, fields, sizes, offsets).put(out),
        Call::BlockRange => hybit_layout_block_range(kinds, ids, fields, sizes, offsets, a).put(
            out,
        ),
        Call::Locate => hybit_layout_locate(kinds, ids, fields, sizes, offsets, a).put(out),
        Call::SquareMatrixSize => hybit_layout_validate_square_matrix_size(
            kinds, ids, fields, sizes, offsets, a as usize, b as usize,
        ).put(out),
        Call::FieldMask => {
            let words = list.as_mut_slice();
            hybit_layout_field_mask(kinds, ids, fields, sizes, offsets, low, words).put(out);
            put_list(out, 48, list.as_slice());
        }
    }
}

// A record and its answer have fixed lengths, and so are arrays; the closure takes slices, as no closure takes an array whose length is a parameter.
fn main(rt: HostRuntime) -> io::Result<()> {
    let mut input = rt.reader();
    let mut output = io::writer(&rt);
    answer_records::<RECORD_BYTES, ANSWER_BYTES, _, _, _>(&mut input, &mut output, |call, out| {
        answer(call.first_chunk().unwrap(), out.first_chunk_mut().unwrap())
    })
}
