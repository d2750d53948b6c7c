// A table of the blocks met, in fixed memory. A key is looked for from its home slot on, up to a free slot or the table's end; it takes the
// free slot. Blocks are taken in a class at a time, where there are more of them than the table holds. Block b stands in its slot as b + 1, and 0
// is a free one: an Option in each slot would double the array. The table is written, and so is handed in beside its class and its last slot.
ghost use Rattle.std.specs.Prelude.{◌≡◌, false, ◌&&◌, ◌+◌, ◌<◌, ◌≤◌, eqb, length};
ghost use Rattle.base.specs.Checks.{side_limit};
ghost use Rattle.twins.specs.Keys.{spread_of};
ghost use Rattle.twins.specs.Views.{repeats, class_of, TableOf, TwinOf};

use crate::keys::{Front, Key, Keys};

// A class of keys, one of those numbered from 0 to `last`. `last` is one less than a power of two.
#[derive(Clone, Copy)]
pub(crate) struct Class {
    pub last: u64,
    pub number: u64,
}

// A key's bits, spread over a word: its class and its home slot. The products fit, since their factors have 32 bits.
#[tactic(auto, unfolding(crate::specs::Keys::spread_of))]
fn spread(key: Key) -> u64
    ensures { result ≡ spread_of key.kind key.id key.field }
{
    let of_id = ((key.id & 4294967295) * 2654435761) ^ ((key.id >> 32) * 2246822519);
    let mixed = of_id ^ (((key.field as u64) * 3266489917) ^ ((key.kind as u64) * 668265263));
    ((mixed ^ (mixed >> 32)) & 4294967295) * 2654435769
}

// Block b is of the class and repeats an earlier key. If not, it is taken in. A table that is full from the home slot on, as ids chosen for
// it can make it, costs a search of all earlier blocks.
fn meets(keys: Keys, class: Class, last_slot: u64, table: &mut [u32], b: usize) -> bool
    requires { (b < length keys.kinds.now) × (b ≤ side_limit) × TableOf keys table.old class.last class.number last_slot b }
    ensures value { result ≡ (eqb (class_of keys.entry class.last b) class.number && repeats keys.entry b) }
    ensures table { result ≡ false → TableOf keys.entry table.new class.last class.number last_slot (b + 1) }
{
    let key = keys.at(b);
    let bits = spread(key);
    if (bits >> 32) & class.last != class.number {
        return false;
    }
    let home = ((bits >> 17) & last_slot) as usize;
    for s in home..table.len() {
        let met = table[s] as usize;
        if met == 0 {
            table[s] = (b + 1) as u32;
            return false;
        }
        if keys.at(met - 1) == key {
            return true;
        }
    }
    keys.found_before(b)
}

// The first block of the class that repeats a key, or how many blocks there are. `table` is scratch, all zero: each step writes it, and a closure of
// `find` would have to say what it holds.
pub(crate) fn first_met(front: Front, class: Class, last_slot: u64, table: &mut [u32]) -> usize
    requires { TableOf front.keys table.old class.last class.number last_slot 0 }
    ensures { TwinOf front.entry.keys class.last class.number (class.number + 1) front.entry.count result }
{
    for b in 0..front.count {
        if meets(front.keys, class, last_slot, table, b) {
            return b;
        }
    }
    front.count
}
