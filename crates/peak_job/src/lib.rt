// The job program on bytes: a job's text in, the answer's text out. It keeps its lists in fixed arrays of 1,024 numbers and lends the library their
// parts.
#![tactic(auto)]

ghost use Rattle.std.specs.Prelude.{◌≡◌};
ghost use Rattle.job_text.specs.Answer.{text_answer, text_left};
ghost use Rattle.peak_job.specs.Answer.{answer_text};

use base::Refusal;
use inner::ARRAY;

pub mod inner;

// No answer has more bytes (`answer-short`).
pub const ANSWER_ROOM: usize = 40960;

// How many bytes the answer's text has, which stands at the front of `out`; `ListTooShort` where that is shorter. The job's lists are fixed arrays,
// since there is no heap.
pub fn run(input: &[u8], out: &mut [u8]) -> Result<u64, Refusal>
    ensures value { result ≡ text_answer (answer_text input.now) out.old }
    ensures out_after { out.new ≡ text_left (answer_text input.now) out.old }
{
    let mut blocks: [u32; ARRAY] = [0; ARRAY];
    let mut ptr: [u32; ARRAY] = [0; ARRAY];
    let mut cols: [u32; ARRAY] = [0; ARRAY];
    let mut seeds: [u64; ARRAY] = [0; ARRAY];
    let job = job_text::inner::read_job(input, &mut blocks, &mut ptr, &mut cols, &mut seeds);
    inner::judge(job.ok(), &blocks, &ptr, &cols, &seeds, out)
}
