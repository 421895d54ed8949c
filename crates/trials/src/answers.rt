// An input of a program, `benchmake` or `benchrun`: the text that is printed for it.
use crate::print;
use script::Refusal;
use std::io;
use streams::limits::MAX_BYTES;

// What the closure answers to the input, into an output that has room for every answer.
pub(crate) fn try_input<F: FnOnce(&[u8], &mut [u8]) -> Result<usize, Refusal>>(
    rt: &impl Print,
    k: usize,
    input: &[u8],
    respond: F,
) -> io::Result<()>
    requires { F.IsAlwaysCallable respond }
{
    let mut out = [0; MAX_BYTES];
    let told = respond(input, &mut out);
    print!(rt; "{k} ")?;
    match told {
        Ok(n) => print::bytes(rt, &out, n),
        Err(_) => print::bytes(rt, b"too short", 9),
    }
}
