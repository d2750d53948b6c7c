// Reading of numbers, lists and lines. A list goes into a lent one as far as that has room, and is read to its end all the same.
ghost use Rattle.std.specs.Prelude.{◌≡◌, ◌&&◌, map, ℕ, ◌≤◌, ◌<◌, leb, length, get_or, set, take, option_copied};
ghost use Rattle.std.specs.Bool.{then_some};
ghost use Rattle.std.proofs.Common.{rules};
ghost use Rattle.base.specs.Lists.{every, is_in, over};
ghost use Rattle.text_writing.specs.Text.{newline};
ghost use Rattle.text_reading.specs.Reading.{DigitFits, is_digit, value_from, leading_zero, number_read, before, behind, list_of, list_read, is_line, value_of, told, held, number_found, list_found};

// How wide the numbers of a list are: the most that one holds, and a number up to it as one of them. A list may be read with a smaller most.
// `records::Element` has an `of` too, which takes any number and makes floats too, which have no most; neither crate stands on the other.
// `base::Number` compares a number, and makes none.
pub trait Width {
    ghost MOST: { ℕ };

    ghost made: { ℕ → Self };

    const MOST: u64;

    fn of(x: u64) -> Self
        requires { x ≤ MOST }
        ensures { result ≡ made x };

    ghost digit: { DigitFits MOST };
}

impl Width for u32 {
    ghost MOST = { 4294967295 };

    ghost made = { λ x. x };

    const MOST: u64 = u32::MAX as u64;

    fn of(x: u64) -> Self {
        x as u32
    }

    ghost digit = { Prim.search rules };
}

impl Width for u64 {
    ghost MOST = { 18446744073709551615 };

    ghost made = { λ x. x };

    const MOST: u64 = u64::MAX;

    fn of(x: u64) -> Self {
        x
    }

    ghost digit = { Prim.search rules };
}

// The bytes before the first such byte, and those behind it where there is one.
fn cut(bytes: &[u8], byte: u8) -> (&[u8], Option<&[u8]>)
    ensures front { result.0.now ≡ before byte bytes.now }
    ensures back { option_copied result.1 ≡ then_some (is_in byte bytes.now) (behind byte bytes.now) }
{
    match bytes.iter().position(|b| *b == byte) {
        Some(n) => (&bytes[..n], Some(&bytes[n + 1..])),
        None => (bytes, None),
    }
}

// The number of the digits, leading zeros let through. One past the most is told before it is made, so nothing wraps. (The library's `parse` takes a
// text, which these bytes need not be, and lets a plus sign through.)
fn read_digits(bytes: &[u8], most: u64) -> Option<u64>
    requires { DigitFits most }
    ensures { result ≡ then_some (every is_digit bytes.now && leb (value_from 0 bytes.now) most) (value_from 0 bytes.now) }
{
    let mut value: u64 = 0;
    for b in bytes {
        if !b.is_ascii_digit() {
            return None;
        }
        let digit = (*b - b'0') as u64;
        if value > (most - digit) / 10 {
            return None;
        }
        value = 10 * value + digit;
    }
    Some(value)
}

// A zero with more behind it.
fn has_leading_zero(bytes: &[u8]) -> bool
    ensures { result ≡ leading_zero bytes.now }
{
    1 < bytes.len() && bytes[0] == b'0'
}

// The number, if the bytes are one of at most the most: digits, one at least, no zero before others.
pub fn read_number(bytes: &[u8], most: u64) -> Option<u64>
    requires { DigitFits most }
    ensures { result ≡ number_read most bytes.now }
{
    if bytes.is_empty() || has_leading_zero(bytes) {
        return None;
    }
    read_digits(bytes, most)
}

// A store, where there is room. `at` is where the one number goes, and not how far the list is filled.
fn store<T: Drop>(list: &mut [T], at: usize, value: T)
    ensures { list.new ≡ set list.old at value }
{
    if at < list.len() {
        list[at] = value;
    }
}

// A figure: in `Ok` where what was read is one, else in `Err`.
fn tell<T>(good: bool, figure: T) -> Result<T, T>
    ensures { result ≡ told good figure }
{
    if good { Ok(figure) } else { Err(figure) }
}

// How many fields there are, in `Err` where one is no number of at most the most; such a field is stored as 0.
pub fn read_list<T: Width + Drop>(bytes: &[u8], most: u64, list: &mut [T]) -> Result<usize, usize>
    requires digit { DigitFits most }
    requires width { most ≤ T.MOST }
    ensures count { result ≡ list_read most bytes.now }
    ensures list_after { list.new ≡ over (take (length list.old) (map T.made (list_of most bytes.now))) list.old }
{
    if bytes.is_empty() {
        return Ok(0);
    }
    let mut good = true;
    // The fields are counted as they are read: their count is answered, and no iterator tells it behind the last without a pass of its own. By `cut`,
    // whose contract says which bytes a field has: of the parts of a `split` the library says how many there are and that none has a comma, and which
    // bytes each has only step by step, by what the closure answers.
    let mut count: usize = 0;
    let mut left = Some(bytes);
    while let Some(part) = left {
        let (field, behind) = cut(part, b',');
        let number = read_number(field, most);
        good &= number.is_some();
        store(list, count, T::of(number.unwrap_or(0)));
        count += 1;
        left = behind;
    }
    tell(good, count)
}

// Numbers that fit 32 bits, over the front of a list of such.
pub fn narrow(list: &[u64], out: &mut [u32])
    requires by_index { (i : ℕ) → i < length list.now → get_or list.now i 0 < 4294967296 }
    requires list_in_bounds { length list.now ≤ length out.old }
    ensures { out.new ≡ over list.now out.old }
{
    for (i, x) in list.iter().enumerate() {
        out[i] = *x as u32;
    }
}

// The first line: whether it has the key and a newline, and in either case its value and the text behind it. A flag beside the value, and no `Option`
// of it: a list takes the front of what the value says where the line is none, too.
#[derive(Clone, Copy)]
struct Line<'a> {
    good: bool,
    value: &'a [u8],
    rest: &'a [u8],
}

impl<'a> Line<'a> {
    // What its value was read as, in `Err` where the line is none, and the text behind it.
    fn holding<T>(self, read: Result<T, T>) -> (Result<T, T>, &'a [u8])
        ensures read { result.0 ≡ held self.entry.good read }
        ensures rest { result.1.now ≡ self.entry.rest.now }
    {
        let held = match read {
            Ok(figure) => tell(self.good, figure),
            Err(figure) => Err(figure),
        };
        (held, self.rest)
    }
}

fn read_line<'a>(text: &'a [u8], key: &[u8]) -> Line<'a>
    ensures good { result.good ≡ is_line key.now text.now }
    ensures value { result.value.now ≡ value_of key.now text.now }
    ensures rest { result.rest.now ≡ behind newline text.now }
{
    let (line, rest) = cut(text, b'\n');
    let from = key.len().min(line.len());
    Line {
        good: rest.is_some() & line.starts_with(key),
        value: &line[from..],
        rest: rest.unwrap_or_default(),
    }
}

// The number of the first line, 0 where its value is none, in `Err` where it is no line of the key with one of at most the most; and the text behind
// it.
pub fn number_line<'a>(text: &'a [u8], key: &[u8], most: u64) -> (Result<u64, u64>, &'a [u8])
    requires { DigitFits most }
    ensures number { result.0 ≡ number_found key.now most text.now }
    ensures rest { result.1.now ≡ behind newline text.now }
{
    let line = read_line(text, key);
    line.holding(read_number(line.value, most).ok_or(0))
}

// How many fields the value of the first line has, in `Err` where it is no line of the key with a list of numbers of at most the most; and the text
// behind it.
pub fn list_line<'a, T: Width + Drop>(
    text: &'a [u8],
    key: &[u8],
    most: u64,
    list: &mut [T],
) -> (Result<usize, usize>, &'a [u8])
    requires digit { DigitFits most }
    requires width { most ≤ T.MOST }
    ensures count { result.0 ≡ list_found key.now most text.now }
    ensures rest { result.1.now ≡ behind newline text.now }
    ensures list_after { list.new ≡ over (take (length list.old) (map T.made (list_of most (value_of key.now text.now)))) list.old }
{
    let line = read_line(text, key);
    line.holding(read_list(line.value, most, list))
}
