// Replays recorded answers of the original Rust: records of 448 bytes on standard input, each a call, and for each an answer record of 168
// bytes on standard output. oracle/README.md says what a record holds, and where, and how the records are made.
#![tactic(auto)]

use hybit_matrix::{
    Answer, hybit_csr32_validate, hybit_mask_and_not_assign, hybit_mask_check, hybit_mask_contains,
    hybit_mask_count_ones, hybit_mask_from_indices, hybit_mask_indices,
    hybit_mask_intersect_assign, hybit_mask_intersects, hybit_mask_is_empty, hybit_mask_new,
    hybit_mask_or_word, hybit_mask_set, hybit_mask_union_assign, hybit_word_base_col,
    hybit_word_bits, hybit_word_contains_offset, hybit_word_mask, hybit_word_popcount,
    hybit_word_rank, hybit_word_select, hybit_word_word_index,
};
use recorded::inner::{Matrix, Recorded};
use records::inner::{Element, List, number_at, put_list};
use std::io;
use streams::inner::answer_records;

const RECORD_BYTES: usize = 448;

const ANSWER_BYTES: usize = 168;

// A record's byte names its call: which call is made is data of who wrote the record, and each arm of the matches below is one call by its C name.
enum WordCall {
    Bits,
    WordIndex,
    BaseCol,
    Mask,
    Popcount,
    ContainsOffset,
    Rank,
    Select,
}

// The calls that only read their mask, or two.
enum MaskReading {
    Check,
    IsEmpty,
    CountOnes,
    Contains,
    Intersects,
}

// Those that write list 1.
enum MaskWriting {
    New,
    FromIndices,
    Set,
    UnionAssign,
    IntersectAssign,
    AndNotAssign,
    OrWord,
}

enum Call {
    Word(WordCall),
    Matrix,
    ReadMask(MaskReading),
    Indices,
    WriteMask(MaskWriting),
}

// By a record's first byte. 0 and a byte past 22 name no call: they ask for what 8 and 22 do. So no byte is an error, and it is no `TryFrom`.
impl From<u8> for Call {
    fn from(byte: u8) -> Call {
        match byte {
            1 => Call::Word(WordCall::Bits),
            2 => Call::Word(WordCall::WordIndex),
            3 => Call::Word(WordCall::BaseCol),
            4 => Call::Word(WordCall::Mask),
            5 => Call::Word(WordCall::Popcount),
            6 => Call::Word(WordCall::ContainsOffset),
            7 => Call::Word(WordCall::Rank),
            0 | 8 => Call::Word(WordCall::Select),
            9 => Call::Matrix,
            10 => Call::ReadMask(MaskReading::Check),
            11 => Call::WriteMask(MaskWriting::New),
            12 => Call::WriteMask(MaskWriting::FromIndices),
            13 => Call::ReadMask(MaskReading::IsEmpty),
            14 => Call::ReadMask(MaskReading::CountOnes),
            15 => Call::WriteMask(MaskWriting::Set),
            16 => Call::ReadMask(MaskReading::Contains),
            17 => Call::WriteMask(MaskWriting::UnionAssign),
            18 => Call::WriteMask(MaskWriting::IntersectAssign),
            19 => Call::WriteMask(MaskWriting::AndNotAssign),
            20 => Call::ReadMask(MaskReading::Intersects),
            21 => Call::Indices,
            _ => Call::WriteMask(MaskWriting::OrWord),
        }
    }
}

// The value of a call that cannot refuse.
fn put_value(out: &mut [u8; ANSWER_BYTES], value: u64) {
    Answer {
        present: true,
        value,
        ..Answer::default()
    }
    .put(out);
}

fn answer_word(word: WordCall, call: &[u8; RECORD_BYTES], out: &mut [u8; ANSWER_BYTES]) {
    let index = u32::of(number_at(call, 8));
    let mask = number_at(call, 16);
    let k = number_at(call, 24) as usize;
    match word {
        WordCall::Bits => put_value(out, hybit_word_bits() as u64),
        WordCall::WordIndex => put_value(out, hybit_word_word_index(index, mask) as u64),
        WordCall::BaseCol => put_value(out, hybit_word_base_col(index, mask) as u64),
        WordCall::Mask => put_value(out, hybit_word_mask(index, mask)),
        WordCall::Popcount => put_value(out, hybit_word_popcount(index, mask) as u64),
        WordCall::ContainsOffset => {
            put_value(out, u64::from(hybit_word_contains_offset(index, mask, k)));
        }
        WordCall::Rank => hybit_word_rank(index, mask, k).put(out),
        WordCall::Select => hybit_word_select(index, mask, k).put(out),
    }
}

fn answer_matrix(call: &[u8; RECORD_BYTES], out: &mut [u8; ANSWER_BYTES]) {
    let matrix = Matrix::read(call, 40, 64);
    let nrows = number_at(call, 8) as usize;
    let ncols = number_at(call, 16) as usize;
    hybit_csr32_validate(
        nrows,
        ncols,
        matrix.row_ptr.as_slice(),
        matrix.col_idx.as_slice(),
        matrix.values.as_slice(),
    )
    .put(out);
}

fn read_mask(reading: MaskReading, call: &[u8; RECORD_BYTES], out: &mut [u8; ANSWER_BYTES]) {
    let len = number_at(call, 8) as usize;
    let b = number_at(call, 16);
    let list: List<u64, 16> = List::read(call, 40, 64);
    let words = list.as_slice();
    let other: List<u64, 16> = List::read(call, 48, 192);
    match reading {
        MaskReading::Check => hybit_mask_check(len, words),
        MaskReading::IsEmpty => hybit_mask_is_empty(len, words),
        MaskReading::CountOnes => hybit_mask_count_ones(len, words),
        MaskReading::Contains => hybit_mask_contains(len, words, b),
        MaskReading::Intersects => {
            hybit_mask_intersects(len, words, b as usize, other.as_slice())
        }
    }
    .put(out);
}

fn write_indices(call: &[u8; RECORD_BYTES], out: &mut [u8; ANSWER_BYTES]) {
    let len = number_at(call, 8) as usize;
    let words: List<u64, 16> = List::read(call, 40, 64);
    let mut list: List<u64, 16> = List::read(call, 48, 192);
    hybit_mask_indices(len, words.as_slice(), list.as_mut_slice()).put(out);
    put_list(out, 40, list.as_slice());
}

fn write_mask(writing: MaskWriting, call: &[u8; RECORD_BYTES], out: &mut [u8; ANSWER_BYTES]) {
    let len = number_at(call, 8) as usize;
    let b = number_at(call, 16);
    let c = number_at(call, 24);
    let mut list: List<u64, 16> = List::read(call, 40, 64);
    let words = list.as_mut_slice();
    let second: List<u64, 16> = List::read(call, 48, 192);
    let other = second.as_slice();
    match writing {
        MaskWriting::New => hybit_mask_new(len, words),
        MaskWriting::FromIndices => hybit_mask_from_indices(len, other, words),
        MaskWriting::Set => hybit_mask_set(len, words, b, c == 1),
        MaskWriting::UnionAssign => hybit_mask_union_assign(len, words, b as usize, other),
        MaskWriting::IntersectAssign => hybit_mask_intersect_assign(len, words, b as usize, other),
        MaskWriting::AndNotAssign => hybit_mask_and_not_assign(len, words, b as usize, other),
        MaskWriting::OrWord => hybit_mask_or_word(len, words, b, c),
    }
    .put(out);
    put_list(out, 40, list.as_slice());
}

fn answer(call: &[u8; RECORD_BYTES], out: &mut [u8; ANSWER_BYTES]) {
    match Call::from(call[0]) {
        Call::Word(word) => answer_word(word, call, out),
        Call::Matrix => answer_matrix(call, out),
        Call::ReadMask(reading) => read_mask(reading, call, out),
        Call::Indices => write_indices(call, out),
        Call::WriteMask(writing) => write_mask(writing, call, out),
    }
}

// A record and its answer have fixed lengths, and so are arrays; the closure takes slices, as no closure takes an array whose length is a parameter.
fn main(rt: HostRuntime) -> io::Result<()> {
    let mut input = rt.reader();
    let mut output = io::writer(&rt);
    answer_records::<RECORD_BYTES, ANSWER_BYTES, _, _, _>(&mut input, &mut output, |call, out| {
        answer(call.first_chunk().unwrap(), out.first_chunk_mut().unwrap())
    })
}
