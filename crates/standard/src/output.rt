// Output.
ghost use Rattle.std.specs.Io.KnownBytes.{Appends, Keeps};
ghost use Rattle.std.specs.Prelude.{◌<◌, ◌≤◌, OnOk, length, take};

use std::io;
use std::io::Write;

// Writes the first n bytes, and nothing where there are fewer.
// The count beside the slice, since where there are fewer bytes nothing is written (`too_few`).
pub fn print<W: Write>(writer: &mut W, out: &[u8], n: usize) -> io::Result<()>
    ensures written { n ≤ length out.now → OnOk result (Appends (W.contents writer.old) (W.contents writer.new) (take n out.now)) }
    ensures too_few { length out.now < n → Keeps (W.contents writer.old) (W.contents writer.new) }
{
    if n <= out.len() {
        writer.write_all(&out[..n])?;
    }
    Ok(())
}
