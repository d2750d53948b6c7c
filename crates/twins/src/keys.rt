// Keys: a block's kind, id and field.
ghost use Rattle.std.specs.Prelude.{◌≡◌, ◌+◌, ◌<◌, ◌≤◌, length};
ghost use Rattle.base.specs.Checks.{side_limit};

// The kind is a number: twins are searched before the kinds are tested.
#[derive(Clone, Copy, PartialEq, Eq)]
pub struct Key {
    pub kind: u8,
    pub id: u64,
    pub field: u32,
}

// The keys of the blocks, in three lists as C lends them.
#[derive(Clone, Copy)]
pub struct Keys<'a> {
    pub kinds: &'a [u8],
    pub ids: &'a [u64],
    pub fields: &'a [u32],
    ghost ids_length: { length ids.now ≡ length kinds.now },
    ghost fields_length: { length fields.now ≡ length kinds.now },
}

// The keys of the first blocks. Keys cut to them would be three lists cut, and what is promised is said of the whole lists.
#[derive(Clone, Copy)]
pub(crate) struct Front<'a> {
    pub keys: Keys<'a>,
    pub count: usize,
    ghost within: { count ≤ length keys.kinds.now },
    ghost few: { count ≤ side_limit + 1 },
}

impl Keys<'_> {
    ghost use Rattle.twins.specs.Views.{key_at, repeats};

    pub(crate) fn at(self, b: usize) -> Key
        requires { b < length self.kinds.now }
        ensures { result ≡ key_at self.entry b }
    {
        Key {
            kind: self.kinds[b],
            id: self.ids[b],
            field: self.fields[b],
        }
    }

    // Some block before b has the key of b.
    pub(crate) fn found_before(self, b: usize) -> bool
        requires { b < length self.kinds.now }
        ensures { result ≡ repeats self.entry b }
    {
        let key = self.at(b);
        (0..b).any(|a| self.at(a) == key)
    }
}
