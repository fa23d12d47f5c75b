// Reading from an input that may end early.
#![tactic(auto)]

ghost use Rattle.std.specs.Prelude.{◌≡◌, ◌≤◌, ◌<◌, length, take, IfOk, IfSome};
ghost use Rattle.std.specs.Io.KnownBytes.{Consumes, IsAtEnd};
ghost use Rattle.reading.specs.Number.{number};

use std::io::{self, Read};

// Fills the buffer from its front, and tells how far: as far as it goes, or less where the input ends.
pub fn read_full<R: Read>(input: &mut R, buffer: &mut [u8]) -> io::Result<usize>
    ensures within { IfOk result (λ n. n ≤ length buffer.new) }
    ensures read { IfOk result (λ n. Consumes (R.remaining input.old) (R.remaining input.new) (take n buffer.new)) }
    ensures ended { IfOk result (λ n. n < length buffer.new → IsAtEnd (R.remaining input.new)) }
{
    let mut done = 0;
    // no `for`: each read says how far it went
    while done < buffer.len() {
        let n = input.read(&mut buffer[done..])?;
        if n == 0 {
            break;
        }
        done += n;
    }
    Ok(done)
}

// A number of 4 bytes, little-endian; bytes that the input no longer has are 0.
pub fn read_number<R: Read>(input: &mut R) -> io::Result<u32>
    ensures { IfOk result (λ n. IfSome (R.remaining input.old) (λ bytes. n ≡ number bytes)) }
{
    let mut bytes = [0; 4];
    let n = read_full(input, &mut bytes)?;
    bytes[n..].fill(0);
    Ok(u32::from_le_bytes(bytes))
}
