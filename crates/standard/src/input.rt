// Input, read to its end. What a program holds of it decides its answer; the rest is read too, so that whoever feeds the program can finish.
ghost use Rattle.std.specs.Io.KnownBytes.{Consumes};
ghost use Rattle.std.specs.Io.{StartsWith};
ghost use Rattle.std.specs.Prelude.{◌≤◌, IfSome, length, take};

use std::io::Read;
use streams::limits::MAX_BYTES;

// What one read puts at the start of the space, in bytes: none at the end of the input, and none where the read fails.
fn read_some<R: Read>(reader: &mut R, space: &mut [u8]) -> usize
    ensures bound { result ≤ length space.new }
    ensures bytes { Consumes (R.remaining reader.old) (R.remaining reader.new) (take result space.new) }
{
    reader.read(space).unwrap_or(0)
}

// Reads until the space is full, the input ends or a read fails. How many bytes it put at the start of the space. Each round goes on by what a read gave.
pub fn read_full<R: Read>(reader: &mut R, space: &mut [u8]) -> usize
    ensures bound { result ≤ length space.new }
    ensures bytes { Consumes (R.remaining reader.old) (R.remaining reader.new) (take result space.new) }
{
    let mut done = 0;
    while done < space.len() {
        let n = read_some(reader, &mut space[done..]);
        if n == 0 {
            break;
        }
        done += n;
    }
    done
}

// Reads what is left of the input.
// A `for`, which ends by itself: of a reader that always gives more no measure falls.
fn drain<R: Read>(reader: &mut R) {
    let mut space = [0u8; MAX_BYTES];
    for _ in 0..u64::MAX {
        if read_some(reader, &mut space) == 0 {
            break;
        }
    }
}

// Fills the space from the input, whose rest is read and dropped. How many bytes it holds then. A read that fails ends the input.
pub fn read_input<R: Read>(reader: &mut R, space: &mut [u8]) -> usize
    ensures bound { result ≤ length space.new }
    ensures bytes { IfSome (R.remaining reader.old) (λ xs. StartsWith xs (take result space.new)) }
{
    let n = read_full(reader, space);
    if n == space.len() {
        drain(reader);
    }
    n
}
