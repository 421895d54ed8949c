// Runs the packed files of data/ through the proved functions and prints each reply, behind its number in the file: scripts.bin through
// reader and checker, makes.bin through the maker, inputs.bin through the answer of `benchmake`, runs.bin through the plain run, readings.bin through
// the answer of `benchrun`, bands.bin through bands, with the checker and the plain run on what they make. Each record stands behind its length in four bytes.
#![tactic(auto)]

ghost use Rattle.std.specs.Prelude.{◌≤◌, length, IfSome};

mod answers;
mod coins;
mod makes;
mod print;
mod runs;
mod scripts;
mod task;

use standard::input::read_full;
use std::fs;
use std::io::{self, Read};
use std::rt::Files;
use streams::limits::MAX_BYTES;

// Reads the next record of the file into the space; its length. None where the file ends before it does, or the space is too short.
fn next(file: &mut impl Read, space: &mut [u8]) -> Option<usize>
    ensures { IfSome result (λ n. n ≤ length space.new) }
{
    let mut head = [0; 4];
    if read_full(file, &mut head) < 4 {
        return None;
    }
    let n = u32::from_le_bytes(head) as usize;
    if space.len() < n || read_full(file, &mut space[..n]) < n {
        return None;
    }
    Some(n)
}

// All records of an open file through the closure.
// A `for`, which ends by itself.
fn run_all<F: Fn(usize, &[u8]) -> io::Result<()>>(
    file: &mut impl Read,
    try_record: F,
) -> io::Result<()>
    requires { F.IsAlwaysCallable try_record }
{
    let mut space = [0; MAX_BYTES];
    for k in 0..1000000 {
        let Some(n) = next(file, &mut space) else {
            break;
        };
        try_record(k, &space[..n])?;
    }
    Ok(())
}

// All records of a file through the closure. A file that cannot be opened is told of.
fn run<F: Fn(usize, &[u8]) -> io::Result<()>>(
    rt: &(impl Files + Print + Eprint),
    path: &str,
    try_record: F,
) -> io::Result<()>
    requires { F.IsAlwaysCallable try_record }
{
    match fs::open(rt, path) {
        Ok(mut file) => run_all(&mut file, try_record),
        Err(e) => eprintln!(rt; "{path}: {e}"),
    }
}

fn main(rt: HostRuntime) -> io::Result<()> {
    run(
        &rt,
        "scripts.bin",
        |k, record| scripts::try_script(&rt, k, record),
    )?;
    run(
        &rt,
        "makes.bin",
        |k, record| makes::try_call(&rt, k, record),
    )?;
    run(&rt, "inputs.bin", |k, record| {
        answers::try_input(&rt, k, record, respond::answer::respond)
    })?;
    run(&rt, "runs.bin", |k, record| runs::try_run(&rt, k, record))?;
    run(&rt, "readings.bin", |k, record| {
        answers::try_input(&rt, k, record, report::answer::respond)
    })?;
    run(
        &rt,
        "bands.bin",
        |k, record| coins::try_call(&rt, k, record),
    )
}
