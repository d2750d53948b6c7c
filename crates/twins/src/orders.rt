// Keys that rise have no twins, in one of two orders: by kind, id, field, as a station lists peak after peak, or by field, kind, id, as it
// lists field after field.
ghost use Rattle.std.specs.Prelude.{◌≡◌, ◌<◌, true, length};
ghost use Rattle.twins.specs.Keys.{Order, by_kind, by_field};
ghost use Rattle.twins.specs.Views.{above, lowest_repeat};

use crate::keys::{Front, Keys};

// An order of the keys. Two blocks are compared list by list, and only as far as it takes: two keys put together and compared by a derived order
// took two thirds more instructions.
pub(crate) trait Ordered {
    ghost order: { Order };

    // Block a is above block b.
    fn above(keys: Keys, a: usize, b: usize) -> bool
        requires { (a < length keys.kinds.now) × (b < length keys.kinds.now) }
        ensures { result ≡ above order keys.entry a b };
}

pub(crate) struct ByKind;

impl Ordered for ByKind {
    ghost order = { by_kind };

    fn above(keys: Keys, a: usize, b: usize) -> bool {
        if keys.kinds[a] != keys.kinds[b] {
            return keys.kinds[b] < keys.kinds[a];
        }
        if keys.ids[a] != keys.ids[b] {
            return keys.ids[b] < keys.ids[a];
        }
        keys.fields[b] < keys.fields[a]
    }
}

pub(crate) struct ByField;

impl Ordered for ByField {
    ghost order = { by_field };

    fn above(keys: Keys, a: usize, b: usize) -> bool {
        if keys.fields[a] != keys.fields[b] {
            return keys.fields[b] < keys.fields[a];
        }
        if keys.kinds[a] != keys.kinds[b] {
            return keys.kinds[b] < keys.kinds[a];
        }
        keys.ids[b] < keys.ids[a]
    }
}

// Each of the blocks is above the one before it.
pub(crate) fn rises<O: Ordered>(front: Front) -> bool
    ensures { result ≡ true → lowest_repeat front.entry.keys front.entry.count ≡ front.entry.count }
{
    let keys = front.keys;
    (1..front.count).all(
        |b|
            requires { (0 < b) × (b < length keys.kinds.now) }
        { O::above(keys, b, b - 1) },
    )
}
