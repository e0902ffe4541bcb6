//! What the programs read, put into lent bytes.
#![tactic(auto)]

ghost use Rattle.std.specs.Prelude.{◌≤◌, ◌<◌, length, take, IfOk, OnErr};
ghost use Rattle.std.specs.Io.KnownBytes.{Consumes, IsAtEnd};
ghost use Rattle.input.specs.Read.{HoldsWhatWasRead};

use std::io;
use std::io::Read;

/// Fills `buf` from its start on, as far as the reader's bytes go, and gives how many bytes that was. A read's error is
/// handed on at once: what was read before it stands at the start of `buf`.
pub fn read_full<R: Read>(from: &mut R, buf: &mut [u8]) -> io::Result<usize>
    ensures within { IfOk result (λ n. n ≤ length buf.new) }
    ensures bytes { IfOk result (λ n. Consumes (R.remaining from.old) (R.remaining from.new) (take n buf.new)) }
    ensures all { IfOk result (λ n. n < length buf.new → IsAtEnd (R.remaining from.new)) }
    ensures error { OnErr result (HoldsWhatWasRead (R.remaining from.old) (R.remaining from.new) buf.new) }
{
    // A read says itself how far it came, so no iterator goes over the buffer; std's own loops allocate, or refuse an end
    // before the buffer is full.
    let mut done = 0;
    while done < buf.len() {
        let n = from.read(&mut buf[done..])?;
        if n == 0 {
            return Ok(done);
        }
        done += n;
    }
    Ok(done)
}
