// The job program: a job's text on standard input, its answer on standard output, and nothing else.
#![tactic(auto)]

use job_text::TEXT_LIMIT;
use peak_job::ANSWER_ROOM;
use std::io::{self, Write};
use streams::read_full;

// One byte more than a job may have is read, so that a longer text is told apart.
const TEXT_BYTES: usize = TEXT_LIMIT + 1;

// Both texts are in fixed arrays, since there is no heap.
fn main(rt: HostRuntime) -> io::Result<()> {
    let mut input = [0u8; TEXT_BYTES];
    let got = read_full(&mut rt.reader(), &mut input)?;
    let mut out = [0u8; ANSWER_ROOM];
    match peak_job::run(&input[..got], &mut out) {
        Err(_) => Ok(()),
        Ok(n) => io::writer(&rt).write_all(&out[..n as usize]),
    }
}
