// An input read into a list that may have more room than bytes are left.
#![tactic(auto)]

ghost use Rattle.std.specs.Prelude.{◌<◌, IfOk, length, take};
ghost use Rattle.std.specs.Io.{ReadsAtMost};
ghost use Rattle.std.specs.Io.KnownBytes.{Consumes, IsAtEnd};

use std::io::{Read, Result};

pub mod inner;

// Reads until the list is full or the input ends; how many bytes it put at the front of the list.
pub fn read_full<R: Read>(input: &mut R, list: &mut [u8]) -> Result<usize>
    ensures bound { ReadsAtMost result list.new }
    ensures bytes { IfOk result (λ n. Consumes (R.remaining input.old) (R.remaining input.new) (take n list.new)) }
    ensures full { IfOk result (λ n. n < length list.new → IsAtEnd (R.remaining input.new)) }
{
    let mut done = 0;
    while done < list.len() {
        let got = input.read(&mut list[done..])?;
        if got == 0 {
            return Ok(done);
        }
        done += got;
    }
    Ok(done)
}
