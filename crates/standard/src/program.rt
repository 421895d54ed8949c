// A program: what a function answers to its input, written.
ghost use Rattle.std.specs.Io.KnownBytes.{Appends};
ghost use Rattle.std.specs.Io.{StartsWith};
ghost use Rattle.std.specs.Prelude.{ℕ, List, IfSome, OnOk};
ghost use Rattle.streams.specs.Responds.{Responds};

use crate::input::read_input;
use crate::output::print;
use script::Refusal;
use std::io;
use std::io::{Read, Write};
use streams::limits::MAX_BYTES;

// Reads all of the input, and writes what the function answers to as many of its bytes as count. Where nothing fails and the function answers each input
// by a text, the text for bytes that begin the input is written.
pub fn run<R: Read, W: Write, F: FnOnce(&[u8], &mut [u8]) -> Result<usize, Refusal>>(
    reader: &mut R,
    writer: &mut W,
    respond: F,
) -> io::Result<()>
    requires { F.IsAlwaysCallable respond }
    ensures { (text : List ℕ → List ℕ) → ((i : _) (o : _) (r : _) (left : _) → F.post respond i o r left → Responds (text i.now) o.now left.now r) → OnOk result (IfSome (R.remaining reader.old) (λ xs. (bs : List ℕ) × (StartsWith xs bs × Appends (W.contents writer.old) (W.contents writer.new) (text bs)))) }
{
    let mut space = [0; MAX_BYTES];
    let n = read_input(reader, &mut space);
    let mut out = [0; MAX_BYTES];
    match respond(&space[..n], &mut out) {
        Ok(k) => print(writer, &out, k),
        Err(_) => Ok(()),
    }
}
