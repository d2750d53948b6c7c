// The checks of the blocks: that there are some, the lengths of their lists, then block by block its kind, its size, its key and the total.
ghost use Rattle.std.specs.Prelude.{◌≡◌, ◌+◌, ◌<◌, ◌≤◌, length};
ghost use Rattle.base.specs.Checks.{checks_below, side_limit};
ghost use Rattle.dof_layout.specs.Layout.{is_kind_code, block_check};

use crate::FieldBlocks;
use base::Refusal;
use twins::inner::Keys;

// A kind stands in C's lists as its number. By range, for each block of a layout: no `DofEntityKind` is made and dropped.
#[tactic(auto, unfolding(crate::specs::Layout::is_kind_code))]
fn is_kind(kind: u8) -> bool
    ensures { result ≡ is_kind_code kind }
{
    matches!(kind, 1..=6 | 255)
}

// Up to which block twins are searched next. It grows with what is checked, so that an early refusal costs little. No equation: its caller needs the
// bounds alone, and no promise depends on how far a search goes.
fn reach_from(b: usize, count: usize) -> usize
    requires { (b < count) × (b ≤ side_limit) }
    ensures { (b < result) × (result ≤ count) × (result ≤ side_limit + 1) }
{
    (4 * b + 64).min(count).min(base::SIDE_LIMIT + 1)
}

// The first block that is refused decides. Every block that passes has a component at least: no block past the limit is reached. The outer loop jumps
// from reach to reach, which no range does.
fn check_each(keys: Keys, components: &[u32]) -> Result<(), Refusal>
    requires { length components.now ≡ length keys.kinds.now }
    ensures { result ≡ checks_below (length keys.entry.kinds.now) (block_check keys.entry.kinds.now keys.entry.ids.now keys.entry.fields.now components.now) }
{
    let mut total: u64 = 0;
    let mut from: usize = 0;
    while from < keys.kinds.len() {
        let reach = reach_from(from, keys.kinds.len());
        let twin = twins::inner::first_twin(keys, reach);
        for b in from..reach {
            if !is_kind(keys.kinds[b]) {
                return Err(Refusal::UnknownKind);
            }
            let size = components[b];
            if size == 0 {
                return Err(Refusal::EmptyBlock);
            }
            if b == twin {
                return Err(Refusal::RepeatedBlock);
            }
            total += size as u64;
            if total > base::SIDE_LIMIT as u64 {
                return Err(Refusal::OverLimit);
            }
        }
        from = reach;
    }
    Ok(())
}

impl FieldBlocks<'_> {
    ghost use Rattle.dof_layout.specs.Views.{check_blocks};

    #[tactic(auto, using(base::proofs::Checks::checks), unfolding(crate::specs::Layout::blocks_check))]
    pub(crate) fn check(self) -> Result<(), Refusal>
        ensures { result ≡ check_blocks self.entry }
    {
        let count = self.entity_kinds.len();
        if count == 0 {
            return Err(Refusal::NoBlock);
        }
        base::must_be(count, self.entity_ids.len())?;
        base::must_be(count, self.field_ids.len())?;
        base::must_be(count, self.components.len())?;
        check_each(
            Keys {
                kinds: self.entity_kinds,
                ids: self.entity_ids,
                fields: self.field_ids,
            },
            self.components,
        )
    }
}
