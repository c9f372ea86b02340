// Reading input whole, as far as there is room. A read that fails is not the end of the input: its error is handed on,
// in place of a number of bytes.
#![tactic(auto)]

ghost use Rattle.std.specs.Prelude.{◌≡◌, ◌≤◌, ◌<◌, ℕ, take, length, IfOk, OnErr};
ghost use Rattle.std.specs.Io.KnownBytes.{Consumes, IsAtEnd};

use std::io;
use std::io::Read;

// Reads until the input ends or the space is full, and answers how many bytes it put at the start of the space. These
// are the next bytes of the input, and all that are left of it where there was room for more. Where a read fails, the
// bytes of the reads before it stand at the start of the space, and the input has lost no other.
pub fn read_input<R: Read>(input: &mut R, space: &mut [u8]) -> io::Result<usize>
    ensures count { IfOk result (λ n. n ≤ length space.new) }
    ensures bytes { IfOk result (λ n. Consumes (R.remaining input.old) (R.remaining input.new)
        (take n space.new)) }
    ensures end { IfOk result (λ n. n < length space.new → IsAtEnd (R.remaining input.new)) }
    ensures failed { OnErr result ((n : ℕ) × Consumes (R.remaining input.old) (R.remaining input.new)
        (take n space.new)) }
{
    let mut done = 0;
    // Kept: what is read so far grows by what each read gives, and no range or iterator counts so.
    while done < space.len() {
        let n = input.read(&mut space[done..])?;
        if n < 1 {
            return Ok(done);
        }
        done += n;
    }
    Ok(done)
}
