// The steps of a job that has been read, for callers that keep its lists: no part of the API.
ghost use Rattle.std.specs.Prelude.{◌≡◌, ◌≤◌, ◌<◌, length};
ghost use Rattle.base.specs.Checks.{◌then◌};
ghost use Rattle.base.specs.Lists.{list_from, over};
ghost use Rattle.base.specs.Sets.{members_below};
ghost use Rattle.mask.specs.Mask.{in_mask, mask_check};
ghost use Rattle.csr32.specs.Views.{check_matrix};
ghost use Rattle.dof_layout.specs.Layout.{offsets_of};
ghost use Rattle.dof_layout.specs.Views.{check_square};
ghost use Rattle.job_text.specs.Answer.{result_lines, text_answer, text_left};
ghost use Rattle.peak_job.specs.Answer.{region_text, text_of};
ghost use Rattle.peak_job.specs.Steps.{read_fits, laid_check, asked_text, judged_text};
ghost use Rattle.peak_job.specs.Views.{lent_text, Small};

use base::Refusal;
use csr32::Csr32Matrix;
use dof_layout::{FieldAwareDofLayout, FieldBlocks};
use job_text::JobRead;
use job_text::inner::JobResult;
use mask::DofMask;
use mask::inner::Mask;

// How many numbers an array of the program has. One block and one column less go into one: its last place is for the last offset, and for where the
// last pair's sources end.
pub const ARRAY: usize = 1024;

// The largest side, and how many words a mask of so many nodes has.
const SIDE: usize = 256;

const SIDE_WORDS: usize = 4;

// A job that has room in the arrays, with its lists as they are lent.
#[derive(Clone, Copy)]
struct Asked<'a> {
    size: usize,
    blocks: &'a [u32],
    ptr: &'a [u32],
    cols: &'a [u32],
    seeds: &'a [u64],
    hops: u64,
    ghost few: { (size ≤ 256) × (length blocks.now ≤ 1023) × (length cols.now ≤ 1023) },
}

// The blocks' ids: each its own number, written in place. What a function hands back as an array is copied by `memcpy`, which an archive for C would
// need from outside besides `memmove` and `memset`.
fn number(ids: &mut [u64; ARRAY])
    ensures { ids.new ≡ list_from (λ b. b) 1024 0 }
{
    for b in 0..ARRAY {
        ids[b] = b as u64;
    }
}

// The blocks' running totals. A function of its own: of a list that is handed in the check knows that each component count has 32 bits, so that the
// total of so few fits 64, and of one in a struct it does not.
fn write_offsets(blocks: &[u32], offsets: &mut [u64])
    requires { (length blocks.now ≤ 1023) × (length blocks.now < length offsets.old) }
    ensures { offsets.new ≡ over (offsets_of blocks.now) offsets.old }
{
    dof_layout::inner::write_offsets(blocks, offsets);
}

// The size and every list have room in the arrays.
fn fits(job: JobRead) -> bool
    ensures { result ≡ read_fits job }
{
    job.size <= SIDE as u64
        && job.blocks < ARRAY
        && job.pointers <= ARRAY
        && job.columns < ARRAY
        && job.seeds <= ARRAY
}

// The five lines of a prepared region; the frontier's members are listed first, in a fixed array, since there is no heap.
fn report(
    frontier: Mask,
    completed: u64,
    region: &[u32],
    ptr: &[u32],
    cols: &[u32],
    out: &mut [u8],
) -> Result<u64, Refusal>
    requires { (frontier.len ≤ 256) × (length region.now ≤ 1024) × (length ptr.now ≤ 1024) × (length cols.now ≤ 1024) }
    ensures value { result ≡ text_answer (result_lines region.now (members_below frontier.entry.len (in_mask frontier.entry.words.now)) completed ptr.now cols.now) out.old }
    ensures out_after { out.new ≡ text_left (result_lines region.now (members_below frontier.entry.len (in_mask frontier.entry.words.now)) completed ptr.now cols.now) out.old }
{
    let mut edge: [u32; SIDE] = [0; SIDE];
    let reached = pattern::inner::write_nodes(frontier, &mut edge);
    JobResult {
        region,
        frontier: &edge[..reached],
        completed,
        ptr,
        cols,
    }
    .write(out)
}

// The region, prepared on arrays that are lent, and its five lines. The arrays are parameters of their own, since `prepare_region` takes each for
// itself.
fn prepare(
    matrix: Csr32Matrix,
    layout: FieldAwareDofLayout,
    seeds: DofMask,
    hops: u64,
    row_word_ptr: &mut [u32; ARRAY],
    row_word_indices: &mut [u32; ARRAY],
    row_masks: &mut [u64; ARRAY],
    column_word_ptr: &mut [u32; ARRAY],
    column_word_indices: &mut [u32; ARRAY],
    column_masks: &mut [u64; ARRAY],
    starts: &mut [u32; ARRAY],
    order: &mut [u32; ARRAY],
    region: &mut [u64; SIDE_WORDS],
    frontier: &mut [u64; SIDE_WORDS],
    scratch: &mut [u64; SIDE_WORDS],
    members: &mut [u32; ARRAY],
    local_ptr: &mut [u32; ARRAY],
    local_cols: &mut [u32; ARRAY],
    source_ptr: &mut [u32; ARRAY],
    sources: &mut [u32; ARRAY],
    out: &mut [u8],
) -> Result<u64, Refusal>
    requires { Small matrix seeds }
    ensures value { result ≡ text_answer (text_of (check_matrix matrix.entry then check_square layout.entry matrix.entry.nrows matrix.entry.ncols) (lent_text matrix.entry layout.entry seeds.entry hops)) out.old }
    ensures out_after { out.new ≡ text_left (text_of (check_matrix matrix.entry then check_square layout.entry matrix.entry.nrows matrix.entry.ncols) (lent_text matrix.entry layout.entry seeds.entry hops)) out.old }
{
    match prepared_field_region::prepare_region(
        matrix,
        layout,
        seeds,
        hops,
        row_word_ptr,
        row_word_indices,
        row_masks,
        column_word_ptr,
        column_word_indices,
        column_masks,
        starts,
        order,
        region,
        frontier,
        scratch,
        members,
        local_ptr,
        local_cols,
        source_ptr,
        sources,
    ) {
        Err(r) => job_text::inner::refuse(r, out),
        Ok(p) => {
            let inside = p.pattern.local_nodes as usize;
            let reached = Mask {
                len: matrix.nrows,
                words: &frontier[..mask::inner::words_for(matrix.nrows)],
            };
            report(
                reached,
                p.growth.hops_completed,
                &members[..inside],
                &local_ptr[..inside + 1],
                &local_cols[..p.pattern.local_nnz as usize],
                out,
            )
        }
    }
}

// The same on arrays of its own, of a fixed length, since there is no heap.
fn cut(
    matrix: Csr32Matrix,
    layout: FieldAwareDofLayout,
    seeds: DofMask,
    hops: u64,
    out: &mut [u8],
) -> Result<u64, Refusal>
    requires { Small matrix seeds }
    ensures value { result ≡ text_answer (text_of (check_matrix matrix.entry then check_square layout.entry matrix.entry.nrows matrix.entry.ncols) (lent_text matrix.entry layout.entry seeds.entry hops)) out.old }
    ensures out_after { out.new ≡ text_left (text_of (check_matrix matrix.entry then check_square layout.entry matrix.entry.nrows matrix.entry.ncols) (lent_text matrix.entry layout.entry seeds.entry hops)) out.old }
{
    let mut row_word_ptr: [u32; ARRAY] = [0; ARRAY];
    let mut row_word_indices: [u32; ARRAY] = [0; ARRAY];
    let mut row_masks: [u64; ARRAY] = [0; ARRAY];
    let mut column_word_ptr: [u32; ARRAY] = [0; ARRAY];
    let mut column_word_indices: [u32; ARRAY] = [0; ARRAY];
    let mut column_masks: [u64; ARRAY] = [0; ARRAY];
    let mut starts: [u32; ARRAY] = [0; ARRAY];
    let mut order: [u32; ARRAY] = [0; ARRAY];
    let mut region: [u64; SIDE_WORDS] = [0; SIDE_WORDS];
    let mut frontier: [u64; SIDE_WORDS] = [0; SIDE_WORDS];
    let mut scratch: [u64; SIDE_WORDS] = [0; SIDE_WORDS];
    let mut members: [u32; ARRAY] = [0; ARRAY];
    let mut local_ptr: [u32; ARRAY] = [0; ARRAY];
    let mut local_cols: [u32; ARRAY] = [0; ARRAY];
    let mut source_ptr: [u32; ARRAY] = [0; ARRAY];
    let mut sources: [u32; ARRAY] = [0; ARRAY];
    prepare(
        matrix,
        layout,
        seeds,
        hops,
        &mut row_word_ptr,
        &mut row_word_indices,
        &mut row_masks,
        &mut column_word_ptr,
        &mut column_word_indices,
        &mut column_masks,
        &mut starts,
        &mut order,
        &mut region,
        &mut frontier,
        &mut scratch,
        &mut members,
        &mut local_ptr,
        &mut local_cols,
        &mut source_ptr,
        &mut sources,
        out,
    )
}

impl Asked<'_> {
    ghost use Rattle.peak_job.specs.Asked.{asked};

    // The layout of the blocks and the matrix's values, in fixed arrays, since there is no heap, then the region of the seeds' mask.
    fn lay_out(self, words: &[u64], out: &mut [u8]) -> Result<u64, Refusal>
        requires { mask_check self.size words.now ≡ Ok tt }
        ensures value { result ≡ text_answer (text_of (laid_check self.entry.size self.entry.blocks.now self.entry.ptr.now self.entry.cols.now) (region_text self.entry.size self.entry.ptr.now self.entry.cols.now self.entry.blocks.now words.now self.entry.hops)) out.old }
        ensures out_after { out.new ≡ text_left (text_of (laid_check self.entry.size self.entry.blocks.now self.entry.ptr.now self.entry.cols.now) (region_text self.entry.size self.entry.ptr.now self.entry.cols.now self.entry.blocks.now words.now self.entry.hops)) out.old }
    {
        let kinds: [u8; ARRAY] = [1; ARRAY];
        let mut ids: [u64; ARRAY] = [0; ARRAY];
        number(&mut ids);
        let fields: [u32; ARRAY] = [0; ARRAY];
        let values: [f64; ARRAY] = [1.0; ARRAY];
        let mut offsets: [u64; ARRAY] = [0; ARRAY];
        write_offsets(self.blocks, &mut offsets);
        let count = self.blocks.len();
        let matrix = Csr32Matrix {
            nrows: self.size,
            ncols: self.size,
            row_ptr: self.ptr,
            col_idx: self.cols,
            values: &values[..self.cols.len()],
        };
        let layout = FieldAwareDofLayout {
            blocks: FieldBlocks {
                entity_kinds: &kinds[..count],
                entity_ids: &ids[..count],
                field_ids: &fields[..count],
                components: self.blocks,
            },
            offsets: &offsets[..count + 1],
        };
        let seeds = DofMask {
            len: self.size,
            words,
        };
        cut(matrix, layout, seeds, self.hops, out)
    }

    // `OutOfRange` for the seeds, whose mask is a fixed array, since there is no heap, then the prepared region's order.
    fn answer(self, out: &mut [u8]) -> Result<u64, Refusal>
        ensures value { result ≡ text_answer (asked_text (asked self.entry)) out.old }
        ensures out_after { out.new ≡ text_left (asked_text (asked self.entry)) out.old }
    {
        let mut words: [u64; SIDE_WORDS] = [0; SIDE_WORDS];
        match mask::from_indices(self.size, self.seeds, &mut words) {
            Err(r) => job_text::inner::refuse(r, out),
            Ok(()) => {
                let need = mask::inner::words_for(self.size);
                self.lay_out(&words[..need], out)
            }
        }
    }
}

// `MalformedJob`, then `OverLimit`, then the rest, of a job that was read into the fronts of four lists.
pub fn judge(
    read: Option<JobRead>,
    blocks: &[u32; ARRAY],
    ptr: &[u32; ARRAY],
    cols: &[u32; ARRAY],
    seeds: &[u64; ARRAY],
    out: &mut [u8],
) -> Result<u64, Refusal>
    ensures value { result ≡ text_answer (judged_text read blocks.now ptr.now cols.now seeds.now) out.old }
    ensures out_after { out.new ≡ text_left (judged_text read blocks.now ptr.now cols.now seeds.now) out.old }
{
    let Some(job) = read else {
        return job_text::inner::refuse(Refusal::MalformedJob, out);
    };
    if !fits(job) {
        return job_text::inner::refuse(Refusal::OverLimit, out);
    }
    Asked {
        size: job.size as usize,
        blocks: &blocks[..job.blocks],
        ptr: &ptr[..job.pointers],
        cols: &cols[..job.columns],
        seeds: &seeds[..job.seeds],
        hops: job.hops,
    }
    .answer(out)
}
