// Numbers and lists in a record of bytes, little-endian, 8 bytes each. Where each stands is the record's format (oracle/README.md): a place is
// handed in.
ghost use Rattle.std.specs.Prelude.{◌≡◌, ℕ, ◌+◌, ◌*◌, ◌%◌, ◌<◌, ◌≤◌, from_bits, to_bits, map, min, length, take, [], ◌∷◌};
ghost use Rattle.std.specs.Float.{binary64};
ghost use Rattle.base.specs.Lists.{placed};
ghost use Rattle.records.specs.Bytes.{number_at, list_found_at, bytes_of};

use std::num;

// An element of a list, as a number of a record is read as one, and as one is written. `text_reading::Width` has an `of` too, which takes numbers up
// to its most only; an f64 has no most, and neither crate stands on the other. `base::Number` only compares.
pub trait Element: Copy {
    ghost read: { ℕ → Self };

    ghost written: { Self → ℕ };

    fn of(n: u64) -> Self
        ensures { result ≡ read n };

    fn number(self) -> u64
        ensures { result ≡ written self };
}

impl Element for u8 {
    ghost read = { λ n. n % 256 };

    ghost written = { λ x. x };

    fn of(n: u64) -> Self {
        (n % 256) as u8
    }

    fn number(self) -> u64 {
        self as u64
    }
}

impl Element for u32 {
    ghost read = { λ n. n % 4294967296 };

    ghost written = { λ x. x };

    fn of(n: u64) -> Self {
        (n % 4294967296) as u32
    }

    fn number(self) -> u64 {
        self as u64
    }
}

impl Element for u64 {
    ghost read = { λ n. n };

    ghost written = { λ x. x };

    fn of(n: u64) -> Self {
        n
    }

    fn number(self) -> u64 {
        self
    }
}

// Every NaN is one, and has one bit pattern.
impl Element for f64 {
    ghost read = { from_bits binary64 };

    ghost written = { to_bits binary64 };

    fn of(n: u64) -> Self {
        num::f64_from_bits_with_nan(n)
    }

    fn number(self) -> u64 {
        num::f64_to_bits_with_nan(self)
    }
}

pub fn number_at(call: &[u8], at: usize) -> u64
    requires { at + 8 ≤ length call.now }
    ensures { result ≡ number_at call.now at }
{
    let mut bytes = [0; 8];
    bytes.copy_from_slice(&call[at..at + 8]);
    u64::from_le_bytes(bytes)
}

// A list's length, where there is room for so many.
pub fn count_at(call: &[u8], at: usize, room: usize) -> usize
    requires { at + 8 ≤ length call.now }
    ensures value { result ≡ min (number_at call.now at) room }
    ensures upper_bound { result ≤ room }
{
    number_at(call, at).min(room as u64) as usize
}

// As many as the list has room for. By places, here and in `put_list`, and not by `as_chunks::<8>`: tried, what a `zip` of `iter_mut` with chunks
// leaves has no name that an answer could cite, and the library does not say what a list is left with whose chunks `as_chunks_mut` lends.
pub fn read_list<T: Element>(call: &[u8], at: usize, list: &mut [T])
    requires { at + 8 * length list.old ≤ length call.now }
    ensures { list.new ≡ list_found_at T.read (length list.old) call.now at }
{
    for (k, x) in list.iter_mut().enumerate() {
        *x = T::of(number_at(call, at + 8 * k));
    }
}

pub fn put_number(out: &mut [u8], at: usize, value: u64)
    requires { at + 8 ≤ length out.old }
    ensures { out.new ≡ placed at (bytes_of (value ∷ []) 8) out.old }
{
    out[at..at + 8].copy_from_slice(&value.to_le_bytes());
}

pub fn put_list<T: Element>(out: &mut [u8], at: usize, list: &[T])
    requires { at + 8 * length list.now ≤ length out.old }
    ensures { out.new ≡ placed at (bytes_of (map T.written list.now) (8 * length list.now)) out.old }
{
    for (k, x) in list.iter().enumerate() {
        put_number(out, at + 8 * k, x.number());
    }
}

// A list of a call: the front of the room that its record has for it. Fixed memory is a rule of the project, so the room is an array.
#[derive(Drop)]
pub struct List<T, const N: usize> {
    pub room: [T; N],
    pub count: usize,
    ghost within: { count ≤ N },
}

impl<T: Element, const N: usize> List<T, N> {
    // The list whose length stands at `count` and whose elements stand at `at`.
    pub fn read(call: &[u8], count: usize, at: usize) -> List<T, N>
        requires fits { N < 1048576 }
        requires stand { (count + 8 ≤ length call.now) × (at + 8 * N ≤ length call.now) }
        ensures room { result.room ≡ list_found_at T.read N call.now at }
        ensures count { result.count ≡ min (number_at call.now count) N }
    {
        let mut room = [T::of(0); N];
        read_list(call, at, &mut room);
        List {
            room,
            count: count_at(call, count, N),
        }
    }

    pub fn as_slice(&self) -> &[T]
        ensures items { result.now ≡ take self.now.count self.now.room }
        ensures upper_bound { length result.now ≤ N }
    {
        &self.room[..self.count]
    }

    // Nothing is said of what the list becomes, as the library's `writes_back` does of a `Vec`: a replay program that lends it writes it out then,
    // and no contract of such a program speaks of what it writes.
    pub fn as_mut_slice(&mut self) -> &mut [T]
        ensures items { result.now ≡ take self.old.count self.old.room }
        ensures upper_bound { length result.now ≤ N }
    {
        let count = self.count;
        let room = &mut self.room;
        &mut room[..count]
    }
}
