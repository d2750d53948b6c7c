// A layout of the unknowns: blocks of consecutive nodes, each a kind, an id, a field id and a component count. The functions of
// FieldAwareDofLayout on lent lists.
#![tactic(auto, using(crate::proofs::Layouts::views))]

ghost use Rattle.std.specs.Prelude.{◌≡◌, IfOk};
ghost use Rattle.dof_layout.specs.Answers.{code_of, kind_answer};
ghost use Rattle.dof_layout.specs.Views.{answer_new, offsets_new};

use base::Refusal;

mod blocks;
pub mod inner;

// What a block's unknowns belong to.
#[derive(Clone, Copy)]
pub enum DofEntityKind {
    Node,
    Edge,
    Face,
    Element,
    Multiplier,
    Constraint,
    Other,
}

// The block of a node, and which of the block's components the node is: the Rust's record, of C too.
#[derive(Clone, Copy)]
pub struct DofAddress {
    pub block_index: usize,
    pub component: u32,
}

// The nodes from `start` up to `end`: the Rust's answer, and a record of C. The library's `Range` has no layout that C knows, and is no Copy.
#[derive(Clone, Copy)]
pub struct Range {
    pub start: u64,
    pub end: u64,
}

// The blocks of a layout as a caller lends them, one list for each of their parts.
#[derive(Clone, Copy)]
pub struct FieldBlocks<'a> {
    pub entity_kinds: &'a [u8],
    pub entity_ids: &'a [u64],
    pub field_ids: &'a [u32],
    pub components: &'a [u32],
}

// A built layout as a caller lends it.
#[derive(Clone, Copy)]
pub struct FieldAwareDofLayout<'a> {
    pub blocks: FieldBlocks<'a>,
    pub offsets: &'a [u64],
}

// The number of a kind.
impl From<DofEntityKind> for u32 {
    ghost from_gives = { λ k n. n ≡ code_of k };

    #[tactic(auto, unfolding(crate::specs::Answers::code_of))]
    fn from(kind: DofEntityKind) -> u32 {
        match kind {
            DofEntityKind::Node => 1,
            DofEntityKind::Edge => 2,
            DofEntityKind::Face => 3,
            DofEntityKind::Element => 4,
            DofEntityKind::Multiplier => 5,
            DofEntityKind::Constraint => 6,
            DofEntityKind::Other => 255,
        }
    }
}

// `DofEntityKind::from_code` of the Rust.
impl TryFrom<u32> for DofEntityKind {
    type Error = Refusal;

    ghost try_from_gives = { λ code r. r ≡ kind_answer code };

    #[tactic(auto, unfolding(base::specs::Checks::must, crate::specs::Layout::is_kind_code, crate::specs::Answers::kind_named))]
    fn try_from(code: u32) -> Result<Self, Refusal> {
        match code {
            1 => Ok(Self::Node),
            2 => Ok(Self::Edge),
            3 => Ok(Self::Face),
            4 => Ok(Self::Element),
            5 => Ok(Self::Multiplier),
            6 => Ok(Self::Constraint),
            255 => Ok(Self::Other),
            _ => Err(Refusal::UnknownKind),
        }
    }
}

// The running totals are written to `out`; answers the total.
#[tactic(auto, using(base::proofs::Checks::checks), unfolding(crate::specs::Answers::new_check))]
pub fn new(blocks: FieldBlocks, out: &mut [u64]) -> Result<u64, Refusal>
    ensures value { result ≡ answer_new blocks.entry out.old }
    ensures out_after { out.new ≡ offsets_new blocks.entry out.old }
{
    blocks.check()?;
    if out.len() <= blocks.entity_kinds.len() {
        return Err(Refusal::ListTooShort);
    }
    Ok(inner::write_offsets(blocks.components, out))
}

impl FieldAwareDofLayout<'_> {
    ghost use Rattle.dof_layout.specs.Views.{check_layout, check_square, answer_total, answer_range, answer_locate, answer_field, words_field, SoundLayout};

    // A built layout: its blocks, then its offsets.
    pub fn check(self) -> Result<(), Refusal>
        ensures value { result ≡ check_layout self.entry }
        ensures accepted { IfOk result (λ t. SoundLayout self.entry) }
    {
        self.blocks.check()?;
        if !inner::are_offsets(self.blocks.components, self.offsets) {
            return Err(Refusal::BadPointers);
        }
        Ok(())
    }

    pub fn total_dofs(self) -> Result<u64, Refusal>
        ensures { result ≡ answer_total self.entry }
    {
        let layout = self.accept()?;
        Ok(layout.total() as u64)
    }

    pub fn block_range(self, index: u64) -> Result<Option<Range>, Refusal>
        ensures { result ≡ answer_range self.entry index }
    {
        let layout = self.accept()?;
        if index >= layout.components.len() as u64 {
            return Ok(None);
        }
        let b = index as usize;
        Ok(Some(Range {
            start: layout.start(b) as u64,
            end: layout.start(b + 1) as u64,
        }))
    }

    pub fn locate(self, dof: u64) -> Result<Option<DofAddress>, Refusal>
        ensures { result ≡ answer_locate self.entry dof }
    {
        let layout = self.accept()?;
        if dof >= layout.total() as u64 {
            return Ok(None);
        }
        let block_index = layout.locate(0, layout.components.len(), dof);
        let component = (dof - layout.start(block_index) as u64) as u32;
        Ok(Some(DofAddress {
            block_index,
            component,
        }))
    }

    pub fn validate_square_matrix_size(self, nrows: usize, ncols: usize) -> Result<(), Refusal>
        ensures { result ≡ check_square self.entry nrows ncols }
    {
        self.accept_square(nrows, ncols)?;
        Ok(())
    }

    // The mask of the nodes whose block has the field; answers its length. The room is tested and the list cut here: a function for both would hand
    // back a part that is written, and each contract would say besides what becomes of the rest.
    #[tactic(auto, using(base::proofs::Checks::checks, crate::proofs::Layouts::views), unfolding(crate::specs::Answers::field_check))]
    pub fn field_mask(self, field_id: u32, out: &mut [u64]) -> Result<u64, Refusal>
        ensures value { result ≡ answer_field self.entry out.old }
        ensures out_after { out.new ≡ words_field self.entry field_id out.old }
    {
        let layout = self.accept()?;
        let total = layout.total();
        let need = mask::inner::words_for(total);
        if out.len() < need {
            return Err(Refusal::ListTooShort);
        }
        layout.fill_field(self.blocks.field_ids, field_id, &mut out[..need]);
        Ok(total as u64)
    }
}
