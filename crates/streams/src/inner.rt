// A program of records, for callers whose answer may be asked of any record: no part of the API.
ghost use Rattle.std.specs.Prelude.{◌≡◌, ◌<◌, OnOk, length};
ghost use Rattle.streams.specs.Records.{MayAnswer, RecordsAnswered};

use crate::read_full;
use std::io::{Read, Result, Write};

// Answers the input's records, of N bytes each, by M bytes each, until there is no whole one left. After an error nothing is known of what was
// written: the writer does not say how much it took. A record is held in an array: memory is fixed, as a rule of the project.
pub fn answer_records<const N: usize, const M: usize, R: Read, W: Write, F: Fn(&[u8], &mut [u8])>(
    input: &mut R,
    output: &mut W,
    answer: F,
) -> Result<()>
    requires fits { (N < 1048576) × (M < 1048576) }
    requires takes { (call : _) (out : _) → length call.now ≡ N → length out.now ≡ M → F.pre answer call out }
    ensures records { OnOk result (RecordsAnswered (MayAnswer F.post answer M) N
        (R.remaining input.old) (R.remaining input.new) (W.contents output.old) (W.contents output.new)) }
{
    // A loop that reads to the end of its input is a range in this language: it is known to end, and needs no handle.
    for _ in 0..u64::MAX {
        let mut call = [0; N];
        if read_full(input, &mut call)? < N {
            break;
        }
        let mut out = [0; M];
        answer(&call, &mut out);
        output.write_all(&out)?;
    }
    Ok(())
}
