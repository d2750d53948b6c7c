// Lines read and written one after the other, for callers that bring the lists: no part of the API.
ghost use Rattle.std.specs.Prelude.{◌≡◌, ◌≤◌, length, take};
ghost use Rattle.base.specs.Lists.{over};
ghost use Rattle.text_reading.specs.Reading.{told};
ghost use Rattle.job_text.specs.Job.{is_job, job_of, figures_of, figure_of, figures_read};
ghost use Rattle.text_writing.specs.Text.{decimal, line};
ghost use Rattle.job_text.specs.Answer.{refused_text, refused_key, text_answer, text_left};

use crate::{JobRead, TEXT_LIMIT};
use base::Refusal;
use text_writing::inner::{Output, line_length, put_line};

// A figure, of a line that is one or not.
fn figure<T>(read: Result<T, T>) -> T
    ensures { result ≡ figure_of read }
{
    match read {
        Ok(x) => x,
        Err(x) => x,
    }
}

// The figures, in `Err` where a line is none.
fn figures(
    size: Result<u64, u64>,
    blocks: Result<usize, usize>,
    pointers: Result<usize, usize>,
    columns: Result<usize, usize>,
    seeds: Result<usize, usize>,
    hops: Result<u64, u64>,
) -> Result<JobRead, JobRead>
    ensures { result ≡ figures_read size blocks pointers columns seeds hops }
{
    let read = JobRead {
        size: figure(size),
        blocks: figure(blocks),
        pointers: figure(pointers),
        columns: figure(columns),
        seeds: figure(seeds),
        hops: figure(hops),
    };
    if size.is_ok()
        & blocks.is_ok()
        & pointers.is_ok()
        & columns.is_ok()
        & seeds.is_ok()
        & hops.is_ok()
    {
        Ok(read)
    } else {
        Err(read)
    }
}

// The figures of the job, in `Err` where the text is none. The whole text is read, also where a line before was bad or a list is longer than the one
// that it goes to, which then takes its front.
pub fn read_job(
    text: &[u8],
    blocks: &mut [u32],
    ptr: &mut [u32],
    cols: &mut [u32],
    seeds: &mut [u64],
) -> Result<JobRead, JobRead>
    ensures value { result ≡ told (is_job text.now) (figures_of (job_of text.now)) }
    ensures components { blocks.new ≡ over (take (length blocks.old) (job_of text.now).blocks) blocks.old }
    ensures pointers { ptr.new ≡ over (take (length ptr.old) (job_of text.now).ptr) ptr.old }
    ensures columns { cols.new ≡ over (take (length cols.old) (job_of text.now).cols) cols.old }
    ensures selected { seeds.new ≡ over (take (length seeds.old) (job_of text.now).seeds) seeds.old }
{
    let (size, rest) = text_reading::inner::number_line(text, b"size=", u64::MAX);
    let (blocks, rest) = text_reading::inner::list_line(rest, b"blocks=", u32::MAX as u64, blocks);
    let (pointers, rest) = text_reading::inner::list_line(rest, b"ptr=", u32::MAX as u64, ptr);
    let (columns, rest) = text_reading::inner::list_line(rest, b"cols=", u32::MAX as u64, cols);
    let (seeds, rest) = text_reading::inner::list_line(rest, b"seeds=", u64::MAX, seeds);
    let (hops, rest) = text_reading::inner::number_line(rest, b"hops=", u64::MAX);
    let read = figures(size, blocks, pointers, columns, seeds, hops);
    if text.len() <= TEXT_LIMIT && rest.is_empty() {
        read
    } else {
        Err(figure(read))
    }
}

// The line refused= and the refusal's number.
pub fn refuse(r: Refusal, out: &mut [u8]) -> Result<u64, Refusal>
    ensures value { result ≡ text_answer (refused_text r) out.old }
    ensures out_after { out.new ≡ text_left (refused_text r) out.old }
{
    write_refused(r.into(), out)
}

// The line refused= and any number.
#[tactic(auto, using(crate::proofs::Lines::lengths))]
pub fn write_refused(number: u32, out: &mut [u8]) -> Result<u64, Refusal>
    ensures value { result ≡ text_answer (line refused_key (decimal number)) out.old }
    ensures out_after { out.new ≡ text_left (line refused_key (decimal number)) out.old }
{
    let length = line_length(b"refused=", number as u64);
    if length > out.len() {
        return Err(Refusal::ListTooShort);
    }
    let mut text = Output { bytes: out, len: 0 };
    put_line(b"refused=", number as u64, &mut text);
    Ok(length as u64)
}

// What is told of an accepted job: the region's members and the last frontier's, how many hops were made, and the pattern of the local matrix.
// Lists of the program's arrays, so that the length of their text fits.
#[derive(Clone, Copy)]
pub struct JobResult<'a> {
    pub region: &'a [u32],
    pub frontier: &'a [u32],
    pub completed: u64,
    pub ptr: &'a [u32],
    pub cols: &'a [u32],
    ghost few: { (length region.now ≤ 1024) × (length frontier.now ≤ 1024) × (length ptr.now ≤ 1024) × (length cols.now ≤ 1024) },
}

impl JobResult<'_> {
    ghost use Rattle.job_text.specs.Views.{lines_of};

    // How many bytes the five lines take.
    #[tactic(auto, using(crate::proofs::Lines::lengths))]
    fn text_length(self) -> usize
        ensures { result ≡ length (lines_of self.entry) }
    {
        line_length(b"region=", self.region)
            + line_length(b"frontier=", self.frontier)
            + line_length(b"completed=", self.completed)
            + line_length(b"local_ptr=", self.ptr)
            + line_length(b"local_cols=", self.cols)
    }

    // The five lines, at the front of a list with room for them.
    #[tactic(auto, using(crate::proofs::Lines::sums))]
    fn write_lines(self, out: &mut [u8])
        requires { length (lines_of self) ≤ length out.old }
        ensures { out.new ≡ over (lines_of self.entry) out.old }
    {
        let mut text = Output { bytes: out, len: 0 };
        put_line(b"region=", self.region, &mut text);
        put_line(b"frontier=", self.frontier, &mut text);
        put_line(b"completed=", self.completed, &mut text);
        put_line(b"local_ptr=", self.ptr, &mut text);
        put_line(b"local_cols=", self.cols, &mut text);
    }

    // The answer of an accepted job.
    #[tactic(auto, using(base::proofs::Checks::checks), unfolding(crate::specs::Answer::text_check))]
    pub fn write(self, out: &mut [u8]) -> Result<u64, Refusal>
        ensures value { result ≡ text_answer (lines_of self.entry) out.old }
        ensures out_after { out.new ≡ text_left (lines_of self.entry) out.old }
    {
        let length = self.text_length();
        if length > out.len() {
            return Err(Refusal::ListTooShort);
        }
        self.write_lines(out);
        Ok(length as u64)
    }
}
