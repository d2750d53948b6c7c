// Recorded job texts, replayed: each is a length of 8 bytes and the text; the answers are written one after the other.
// Texts and answers are held in arrays: memory is fixed, as a rule of the project.
#![tactic(auto)]

use job_text::TEXT_LIMIT;
use peak_job::ANSWER_ROOM;
use records::inner::number_at;
use std::io::{self, Read, Write};
use streams::read_full;

// The longest text: 256 bytes more than a job may have, so that texts that are refused for their length are replayed too.
const TEXT_BYTES: usize = TEXT_LIMIT + 256;

// What became of the next text: at an end nothing more is read. `ControlFlow<()>` has as much, and its names say less of what came about.
#[derive(Clone, Copy)]
enum Outcome {
    Answered,
    Ended,
}

// A text without an answer ends the replay.
fn answer<W: Write>(text: &[u8], output: &mut W) -> io::Result<Outcome> {
    let mut out = [0u8; ANSWER_ROOM];
    match peak_job::run(text, &mut out) {
        Err(_) => Ok(Outcome::Ended),
        Ok(n) => {
            output.write_all(&out[..n as usize])?;
            Ok(Outcome::Answered)
        }
    }
}

// One text, read to the list, which is as long.
fn replay<R: Read, W: Write>(
    text: &mut [u8],
    input: &mut R,
    output: &mut W,
) -> io::Result<Outcome> {
    if read_full(input, text)? < text.len() {
        return Ok(Outcome::Ended);
    }
    answer(text, output)
}

// One length and its text. The end of the input ends the replay, and a length that no job has.
fn turn<R: Read, W: Write>(input: &mut R, output: &mut W) -> io::Result<Outcome> {
    let mut head = [0u8; 8];
    if read_full(input, &mut head)? < 8 {
        return Ok(Outcome::Ended);
    }
    let length = number_at(&head, 0);
    if length > TEXT_BYTES as u64 {
        return Ok(Outcome::Ended);
    }
    let mut text = [0u8; TEXT_BYTES];
    replay(&mut text[..length as usize], input, output)
}

fn main(rt: HostRuntime) -> io::Result<()> {
    let mut input = rt.reader();
    let mut output = io::writer(&rt);
    // A loop that reads to the end of its input is a range in this language: it is known to end, and needs no handle.
    for _ in 0..u64::MAX {
        if let Outcome::Ended = turn(&mut input, &mut output)? {
            break;
        }
    }
    Ok(())
}
