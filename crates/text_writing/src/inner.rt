// Numbers, lists and lines as text: how long it is, and the text put into a lent list, behind what is written there.
ghost use Rattle.std.specs.Prelude.{◌≡◌, ℕ, ◌+◌, ◌^◌, ◌<◌, ◌≤◌, List, [], ◌∷◌, length};
ghost use Rattle.base.specs.Lists.{placed};
ghost use Rattle.text_writing.specs.Text.{decimal, numbers, line};

// A lent list of bytes, and how many of them are written: there is no heap, and so no text that grows.
#[derive(Drop)]
pub struct Output<'a> {
    pub bytes: &'a mut [u8],
    pub len: usize,
}

// What a value is as text, how long that is, and the text put behind what is written. The list is still the caller's (`same_reference`), so that a
// caller knows what became of its own.
pub trait Text {
    ghost text: { Self → List ℕ };

    fn length(self) -> usize
        requires { length (text self) < 2 ^ 32 }
        ensures { result ≡ length (text self) };

    fn put(self, out: &mut Output<'_>)
        requires { out.old.len + length (text self) ≤ length out.old.bytes.now }
        ensures len { out.new.len ≡ out.old.len + length (text self) }
        ensures bytes { out.new.bytes.now ≡ placed out.old.len (text self) out.old.bytes.now }
        ensures same_reference { out.new.bytes.ghost_name ≡ out.old.bytes.ghost_name };
}

impl Text for &[u8] {
    ghost text = { λ bytes. bytes.now };

    fn length(self) -> usize
        ensures { result ≡ length self.now }
    {
        self.len()
    }

    fn put(self, out: &mut Output<'_>) {
        let end = out.len + self.len();
        out.bytes[out.len..end].copy_from_slice(self);
        out.len = end;
    }
}

impl Text for u64 {
    ghost text = { decimal };

    fn length(self) -> usize
        ensures { result ≡ length (decimal self) }
    {
        self.checked_ilog10().unwrap_or(0) as usize + 1
    }

    // The last digit first, from the end down, by its place, of which the promise speaks. By hand: formatting goes by `fmt::Write`, whose writes
    // may fail.
    fn put(self, out: &mut Output<'_>) {
        let end = out.len + self.length();
        let mut left = self;
        for place in (out.len..end).rev() {
            out.bytes[place] = b'0' + (left % 10) as u8;
            left /= 10;
        }
        out.len = end;
    }
}

impl Text for &[u32] {
    ghost text = { λ list. numbers list.now };

    fn length(self) -> usize {
        let digits: usize = self.iter().map(|x| (*x as u64).length()).sum();
        digits + self.len().saturating_sub(1)
    }

    fn put(self, out: &mut Output<'_>) {
        let Some((first, rest)) = self.split_first() else {
            return;
        };
        (*first as u64).put(out);
        for x in rest {
            put_byte(b',', out);
            (*x as u64).put(out);
        }
    }
}

#[tactic(auto, using(crate::proofs::Lists::placed_one))]
fn put_byte(byte: u8, out: &mut Output<'_>)
    requires { out.old.len < length out.old.bytes.now }
    ensures len { out.new.len ≡ out.old.len + 1 }
    ensures bytes { out.new.bytes.now ≡ placed out.old.len (byte ∷ []) out.old.bytes.now }
    ensures same_reference { out.new.bytes.ghost_name ≡ out.old.bytes.ghost_name }
{
    out.bytes[out.len] = byte;
    out.len += 1;
}

// How many bytes `put_line` puts.
#[tactic(auto, using(crate::proofs::Lists::sums))]
pub fn line_length<T: Text>(key: &[u8], value: T) -> usize
    requires { length (line key.now (T.text value)) < 2 ^ 32 }
    ensures value { result ≡ length (line key.now (T.text value)) }
    ensures bound { result < 2 ^ 32 }
{
    key.len() + value.length() + 1
}

#[tactic(auto, using(crate::proofs::Lists::sums))]
pub fn put_line<T: Text>(key: &[u8], value: T, out: &mut Output<'_>)
    requires { out.old.len + length (line key.now (T.text value)) ≤ length out.old.bytes.now }
    ensures len { out.new.len ≡ out.old.len + length (line key.now (T.text value)) }
    ensures bytes { out.new.bytes.now ≡ placed out.old.len (line key.now (T.text value)) out.old.bytes.now }
    ensures room { length out.new.bytes.now ≡ length out.old.bytes.now }
    ensures same_reference { out.new.bytes.ghost_name ≡ out.old.bytes.ghost_name }
{
    key.put(out);
    value.put(out);
    put_byte(b'\n', out);
}
