// The first block that repeats the key of an earlier one, for a caller that has checked the lengths: no part of the API.
ghost use Rattle.std.specs.Prelude.{◌≡◌, ◌+◌, ◌≤◌, length};
ghost use Rattle.base.specs.Checks.{side_limit};
ghost use Rattle.twins.specs.Views.{lowest_repeat, TwinOf};

use crate::keys::Front;
pub use crate::keys::Keys;
use crate::orders::{self, ByField, ByKind};
use crate::table::{self, Class};

// The last of 1, 2, 4, .. classes, so many that the large table is two thirds full at most.
fn last_class(count: usize) -> u64
    requires { count ≤ side_limit + 1 }
    ensures { result ≤ count }
{
    (count.div_ceil(20480).next_power_of_two() - 1) as u64
}

// The first block of the class that repeats a key, by a table of N slots: the homes are up to `last_slot`, the rest is room after them. An array:
// no heap. It is no part of its caller: the arrays of all three would stand on the stack of every check of a layout.
#[inline(never)]
fn first_in_table<const N: usize>(front: Front, class: Class, last_slot: u64) -> usize
    requires { N ≤ 33024 }
    ensures { TwinOf front.entry.keys class.last class.number (class.number + 1) front.entry.count result }
{
    let mut table = [0u32; N];
    table::first_met(front, class, last_slot, &mut table)
}

// To clear the large table would cost a small layout more than its blocks do.
fn first_in_class(front: Front, class: Class) -> usize
    ensures { TwinOf front.entry.keys class.last class.number (class.number + 1) front.entry.count result }
{
    if front.count <= 64 {
        first_in_table::<192>(front, class, 127)
    } else if front.count <= 1344 {
        first_in_table::<2304>(front, class, 2047)
    } else {
        first_in_table::<33024>(front, class, 32767)
    }
}

// The first of the blocks that repeats the key of an earlier one, or `count`. Blocks in a rising order need no table. Where there is none, each
// search answers how many blocks it was asked of, and so bounds the search of the next class: an Option would be turned into that number at each.
pub fn first_twin(keys: Keys, count: usize) -> usize
    requires { (count ≤ length keys.kinds.now) × (count ≤ side_limit + 1) }
    ensures { result ≡ lowest_repeat keys.entry count }
{
    let all = Front { keys, count };
    if orders::rises::<ByKind>(all) || orders::rises::<ByField>(all) {
        return count;
    }
    let last = last_class(count);
    let mut twin = count;
    for number in 0..last + 1 {
        twin = first_in_class(Front { keys, count: twin }, Class { last, number });
    }
    twin
}
