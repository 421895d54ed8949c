// Lines of numbers, or of bytes.
use std::io;
use text::decimals::put_decimal;

// The first n bytes of a text.
pub(crate) fn bytes(rt: &impl Print, text: &[u8], n: usize) -> io::Result<()> {
    if n <= text.len() {
        rt.write_all(&text[..n])?;
    }
    Ok(())
}

// Numbers behind a first one, with a space before each.
pub(crate) fn numbers(rt: &impl Print, first: usize, others: &[usize]) -> io::Result<()> {
    print!(rt; "{first}")?;
    for x in others {
        print!(rt; " {x}")?;
    }
    Ok(())
}

pub(crate) fn signed(rt: &impl Print, z: i32) -> io::Result<()> {
    let mut space = [0; 12];
    let written = put_decimal(&mut space, z);
    print!(rt; " ")?;
    bytes(rt, &space, written.length)
}

// Two hexadecimal digits for each of the first n bytes.
pub(crate) fn hexadecimal(rt: &impl Print, file: &[u8], n: usize) -> io::Result<()> {
    for x in file.iter().take(n) {
        print!(rt; "{x:02x}")?;
    }
    end(rt)
}

pub(crate) fn end(rt: &impl Print) -> io::Result<()> {
    rt.write_all(b"\n")
}

// Numbers on a line of their own.
pub(crate) fn line(rt: &impl Print, first: usize, others: &[usize]) -> io::Result<()> {
    numbers(rt, first, others)?;
    end(rt)
}
