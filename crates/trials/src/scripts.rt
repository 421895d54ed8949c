// A script through the reader and, if it is read, through the checker: number and place of its refusal; 0 0 is an accepted script.
use crate::print;
use crate::task::with_script;
use annotation::check::check;
use script::Unfinished;
use std::io;

pub(crate) fn check_file(file: &[u8]) -> Result<(), Unfinished> {
    with_script(file, |n, columns| {
        check(n, columns)?;
        Ok(())
    })
}

pub(crate) fn try_script(rt: &impl Print, k: usize, file: &[u8]) -> io::Result<()> {
    match check_file(file) {
        Ok(()) => print::line(rt, k, &[0, 0]),
        Err(u) => print::line(rt, k, &[u.refusal.number as usize, u.refusal.place]),
    }
}
