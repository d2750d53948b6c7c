// The calls of a layout with flat answers.
ghost use Rattle.std.specs.Prelude.{◌≡◌};
ghost use Rattle.dof_layout.specs.Layout.{layout_check};
ghost use Rattle.dof_layout.specs.Answers.{code_of, kind_answer, new_answer, new_offsets, total_answer, range_answer, locate_answer, square_check, field_answer, field_words};
ghost use Rattle.hybit_matrix.specs.Flat.{answer_of_number, pair_answer_of, flat_of_checked, flat_of_counted, flat_of_kinded, flat_of_ranged, flat_of_located};

use crate::{Answer, Flat, PairAnswer, views};
use dof_layout::{DofAddress, DofEntityKind, Range};

impl Flat<Answer> for DofEntityKind {
    ghost flat_record = { λ k. answer_of_number (code_of k) };

    fn flat(self) -> Answer {
        (u32::from(self) as u64).flat()
    }
}

impl Flat<PairAnswer> for Range {
    ghost flat_record = { λ n. pair_answer_of n.start n.end };

    fn flat(self) -> PairAnswer {
        (self.start, self.end).flat()
    }
}

impl Flat<PairAnswer> for DofAddress {
    ghost flat_record = { λ x. pair_answer_of x.block_index x.component };

    fn flat(self) -> PairAnswer {
        (self.block_index as u64, self.component as u64).flat()
    }
}

// value: the kind's number, which is the code. Refuses 17.
pub fn hybit_kind_of(code: u32) -> Answer
    ensures { result ≡ flat_of_kinded (kind_answer code) }
{
    DofEntityKind::try_from(code).into()
}

// Running totals of the components in `out`, which needs blocks + 1; value: the total. Refuses 14, 11, by block 17, 15, 16, 1, then 25.
pub fn hybit_layout_new(
    entity_kinds: &[u8],
    entity_ids: &[u64],
    field_ids: &[u32],
    components: &[u32],
    out: &mut [u64],
) -> Answer
    ensures value { result ≡ flat_of_counted (new_answer entity_kinds.now entity_ids.now field_ids.now components.now out.old) }
    ensures out_after { out.new ≡ new_offsets entity_kinds.now entity_ids.now field_ids.now components.now out.old }
{
    dof_layout::new(
        views::blocks(entity_kinds, entity_ids, field_ids, components),
        out,
    )
    .into()
}

// Checks a layout: as new, then 26.
pub fn hybit_layout_check(
    entity_kinds: &[u8],
    entity_ids: &[u64],
    field_ids: &[u32],
    components: &[u32],
    offsets: &[u64],
) -> Answer
    ensures { result ≡ flat_of_checked (layout_check entity_kinds.now entity_ids.now field_ids.now components.now offsets.now) }
{
    views::layout(entity_kinds, entity_ids, field_ids, components, offsets)
        .check()
        .into()
}

// value: the total. Refuses as the check.
pub fn hybit_layout_total_dofs(
    entity_kinds: &[u8],
    entity_ids: &[u64],
    field_ids: &[u32],
    components: &[u32],
    offsets: &[u64],
) -> Answer
    ensures { result ≡ flat_of_counted (total_answer entity_kinds.now entity_ids.now field_ids.now components.now offsets.now) }
{
    views::layout(entity_kinds, entity_ids, field_ids, components, offsets)
        .total_dofs()
        .into()
}

// first and second: start and end of a block; past the last block none. Refuses as the check.
pub fn hybit_layout_block_range(
    entity_kinds: &[u8],
    entity_ids: &[u64],
    field_ids: &[u32],
    components: &[u32],
    offsets: &[u64],
    index: u64,
) -> PairAnswer
    ensures { result ≡ flat_of_ranged (range_answer entity_kinds.now entity_ids.now field_ids.now components.now offsets.now index) }
{
    views::layout(entity_kinds, entity_ids, field_ids, components, offsets)
        .block_range(index)
        .into()
}

// first and second: block and component of a node; past the last node none. Refuses as the check.
pub fn hybit_layout_locate(
    entity_kinds: &[u8],
    entity_ids: &[u64],
    field_ids: &[u32],
    components: &[u32],
    offsets: &[u64],
    dof: u64,
) -> PairAnswer
    ensures { result ≡ flat_of_located (locate_answer entity_kinds.now entity_ids.now field_ids.now components.now offsets.now dof) }
{
    views::layout(entity_kinds, entity_ids, field_ids, components, offsets)
        .locate(dof)
        .into()
}

// Whether the total is both sides. Refuses as the check, then 18.
pub fn hybit_layout_validate_square_matrix_size(
    entity_kinds: &[u8],
    entity_ids: &[u64],
    field_ids: &[u32],
    components: &[u32],
    offsets: &[u64],
    nrows: usize,
    ncols: usize,
) -> Answer
    ensures { result ≡ flat_of_checked (square_check entity_kinds.now entity_ids.now field_ids.now components.now offsets.now nrows ncols) }
{
    views::layout(entity_kinds, entity_ids, field_ids, components, offsets)
        .validate_square_matrix_size(nrows, ncols)
        .into()
}

// The mask of a field's nodes in `out`, which needs the words of a mask of the total; value: the total. Refuses as the check, then 25.
pub fn hybit_layout_field_mask(
    entity_kinds: &[u8],
    entity_ids: &[u64],
    field_ids: &[u32],
    components: &[u32],
    offsets: &[u64],
    field_id: u32,
    out: &mut [u64],
) -> Answer
    ensures value { result ≡ flat_of_counted (field_answer entity_kinds.now entity_ids.now field_ids.now components.now offsets.now out.old) }
    ensures out_after { out.new ≡ field_words entity_kinds.now entity_ids.now field_ids.now components.now offsets.now field_id out.old }
{
    views::layout(entity_kinds, entity_ids, field_ids, components, offsets)
        .field_mask(field_id, out)
        .into()
}
