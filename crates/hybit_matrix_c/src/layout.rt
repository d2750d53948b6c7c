// The calls of hybit_matrix::layout, exported.
// Made by tools/exports from crates/hybit_matrix/src: do not edit.
ghost use Rattle.std.specs.Prelude.{◌≡◌};
ghost use Rattle.dof_layout.specs.Layout.{layout_check};
ghost use Rattle.dof_layout.specs.Answers.{kind_answer, new_answer, new_offsets, total_answer, range_answer, locate_answer, square_check, field_answer, field_words};
ghost use Rattle.hybit_matrix.specs.Flat.{flat_of_checked, flat_of_counted, flat_of_kinded, flat_of_ranged, flat_of_located};

use hybit_matrix::{Answer, PairAnswer};

// value: the kind's number, which is the code. Refuses 17.
#[unsafe(no_mangle)]
pub extern "C" fn hybit_kind_of(code: u32) -> Answer
    ensures { result ≡ flat_of_kinded (kind_answer code) }
{
    hybit_matrix::layout::hybit_kind_of(code)
}

// Running totals of the components in `out`, which needs blocks + 1; value: the total. Refuses 14, 11, by block 17, 15, 16, 1, then 25.
#[unsafe(no_mangle)]
pub extern "C" fn hybit_layout_new(
    entity_kinds: &[u8],
    entity_ids: &[u64],
    field_ids: &[u32],
    components: &[u32],
    out: &mut [u64],
) -> Answer
    ensures value { result ≡ flat_of_counted (new_answer entity_kinds.now entity_ids.now field_ids.now components.now out.old) }
    ensures out_after { out.new ≡ new_offsets entity_kinds.now entity_ids.now field_ids.now components.now out.old }
{
    hybit_matrix::layout::hybit_layout_new(entity_kinds, entity_ids, field_ids, components, out)
}

// Checks a layout: as new, then 26.
#[unsafe(no_mangle)]
pub extern "C" fn hybit_layout_check(
    entity_kinds: &[u8],
    entity_ids: &[u64],
    field_ids: &[u32],
    components: &[u32],
    offsets: &[u64],
) -> Answer
    ensures { result ≡ flat_of_checked (layout_check entity_kinds.now entity_ids.now field_ids.now components.now offsets.now) }
{
    hybit_matrix::layout::hybit_layout_check(
        entity_kinds,
        entity_ids,
        field_ids,
        components,
        offsets,
    )
}

// value: the total. Refuses as the check.
#[unsafe(no_mangle)]
pub extern "C" fn hybit_layout_total_dofs(
    entity_kinds: &[u8],
    entity_ids: &[u64],
    field_ids: &[u32],
    components: &[u32],
    offsets: &[u64],
) -> Answer
    ensures { result ≡ flat_of_counted (total_answer entity_kinds.now entity_ids.now field_ids.now components.now offsets.now) }
{
    hybit_matrix::layout::hybit_layout_total_dofs(
        entity_kinds,
        entity_ids,
        field_ids,
        components,
        offsets,
    )
}

// first and second: start and end of a block; past the last block none. Refuses as the check.
#[unsafe(no_mangle)]
pub extern "C" fn hybit_layout_block_range(
    entity_kinds: &[u8],
    entity_ids: &[u64],
    field_ids: &[u32],
    components: &[u32],
    offsets: &[u64],
    index: u64,
) -> PairAnswer
    ensures { result ≡ flat_of_ranged (range_answer entity_kinds.now entity_ids.now field_ids.now components.now offsets.now index) }
{
    hybit_matrix::layout::hybit_layout_block_range(
        entity_kinds,
        entity_ids,
        field_ids,
        components,
        offsets,
        index,
    )
}

// first and second: block and component of a node; past the last node none. Refuses as the check.
#[unsafe(no_mangle)]
pub extern "C" fn hybit_layout_locate(
    entity_kinds: &[u8],
    entity_ids: &[u64],
    field_ids: &[u32],
    components: &[u32],
    offsets: &[u64],
    dof: u64,
) -> PairAnswer
    ensures { result ≡ flat_of_located (locate_answer entity_kinds.now entity_ids.now field_ids.now components.now offsets.now dof) }
{
    hybit_matrix::layout::hybit_layout_locate(
        entity_kinds,
        entity_ids,
        field_ids,
        components,
        offsets,
        dof,
    )
}

// Whether the total is both sides. Refuses as the check, then 18.
#[unsafe(no_mangle)]
pub extern "C" fn hybit_layout_validate_square_matrix_size(
    entity_kinds: &[u8],
    entity_ids: &[u64],
    field_ids: &[u32],
    components: &[u32],
    offsets: &[u64],
    nrows: usize,
    ncols: usize,
) -> Answer
    ensures { result ≡ flat_of_checked (square_check entity_kinds.now entity_ids.now field_ids.now components.now offsets.now nrows ncols) }
{
    hybit_matrix::layout::hybit_layout_validate_square_matrix_size(
        entity_kinds,
        entity_ids,
        field_ids,
        components,
        offsets,
        nrows,
        ncols,
    )
}

// The mask of a field's nodes in `out`, which needs the words of a mask of the total; value: the total. Refuses as the check, then 25.
#[unsafe(no_mangle)]
pub extern "C" fn hybit_layout_field_mask(
    entity_kinds: &[u8],
    entity_ids: &[u64],
    field_ids: &[u32],
    components: &[u32],
    offsets: &[u64],
    field_id: u32,
    out: &mut [u64],
) -> Answer
    ensures value { result ≡ flat_of_counted (field_answer entity_kinds.now entity_ids.now field_ids.now components.now offsets.now out.old) }
    ensures out_after { out.new ≡ field_words entity_kinds.now entity_ids.now field_ids.now components.now offsets.now field_id out.old }
{
    hybit_matrix::layout::hybit_layout_field_mask(
        entity_kinds,
        entity_ids,
        field_ids,
        components,
        offsets,
        field_id,
        out,
    )
}
