// Reads an input whole, into a buffer of the caller's.
#![tactic(auto)]

ghost use Rattle.std.specs.Prelude.{◌≤◌, ◌<◌, length, take, IfOk, OnErr};
ghost use Rattle.std.specs.Io.KnownBytes.{Consumes, IsAtEnd};
ghost use Rattle.intake.specs.Front.{TookFront};

use std::io;
use std::io::Read;

// Reads until the buffer is full or the input ends, and tells how many bytes it put at the start of the buffer. Where a read fails, what was
// read before stands there still, and no byte of the input is lost.
pub fn fill<R: Read>(input: &mut R, buf: &mut [u8]) -> io::Result<usize>
    ensures fits { IfOk result (λ n. n ≤ length buf.new) }
    ensures bytes { IfOk result (λ n. Consumes (R.remaining input.old) (R.remaining input.new) (take n buf.new)) }
    ensures err { OnErr result (TookFront (R.remaining input.old) (R.remaining input.new) buf.new) }
    ensures whole { IfOk result (λ n. n < length buf.new → IsAtEnd (R.remaining input.new)) }
{
    let mut at = 0;
    // std's `read_exact` fails where the input ends first, and its `read_to_end` takes a `Vec`, of which there is none here
    while at < buf.len() {
        let n = input.read(&mut buf[at..])?;
        if n == 0 {
            return Ok(at);
        }
        at += n;
    }
    Ok(at)
}
