// Reading up to a number of bytes.
#![tactic(auto)]

ghost use Rattle.std.specs.Prelude.{ℕ, ◌<◌, ◌≤◌, length, take, IfOk, OnErr};
ghost use Rattle.std.specs.Io.{ReadsAtMost};
ghost use Rattle.std.specs.Io.KnownBytes.{Consumes, IsAtEnd};

use std::io;
use std::io::Read;

// Reads until `space` is full or the input ends, and returns how many bytes it put at the start of `space`. Where a read fails, what was read
// before it stands there, and nothing else is lost of the input.
pub fn read_full<R: Read>(input: &mut R, space: &mut [u8]) -> io::Result<usize>
    ensures bound { ReadsAtMost result space.new }
    ensures bytes { IfOk result (λ n. Consumes (R.remaining input.old) (R.remaining input.new) (take n space.new)) }
    ensures all { IfOk result (λ n. n < length space.new → IsAtEnd (R.remaining input.new)) }
    ensures err { OnErr result ((n : ℕ) × (n ≤ length space.new) × Consumes (R.remaining input.old) (R.remaining input.new) (take n space.new)) }
{
    let mut done: usize = 0;
    // A while: each read gives as many bytes as it likes, and no index counts them.
    while done < space.len() {
        let got = input.read(&mut space[done..])?;
        if got == 0 {
            return Ok(done);
        }
        done += got;
    }
    Ok(done)
}
