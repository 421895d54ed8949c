// A call of the maker: number, place and steps of its reply; of made code the count of its nodes and the bytes of its file.
// The record tells whether the run is bare, the fuel, how many places of the heap, of the code store and of the output are lent, the
// settings, and the script file.
ghost use Rattle.std.specs.Prelude.{◌≤◌, length};

use crate::print;
use crate::task::with_script;
use cells::limits::MAX_FUEL;
use lambdamix::Mode;
use reading::bytes;
use reading::fill::fill;
use residual::Made;
use script::column::at;
use script::limits::MAX_INPUTS;
use script::place::file_size;
use script::{Counts, Unfinished};
use specializer::make::make;
use std::io;
use streams::limits::MAX_BYTES;

// Places of the stores that suffice for every call.
pub(crate) const HEAP: usize = (MAX_FUEL as usize) + MAX_INPUTS;

const CODES: usize = 2 * (MAX_FUEL as usize) + MAX_INPUTS;

// A length that is lent of a place for `most`.
pub(crate) fn lent(record: &[u8], place: u16, most: usize) -> usize
    ensures { result ≤ most }
{
    (bytes::number32(record, place as usize) as usize).min(most)
}

// The settings of a record, from a place on.
pub(crate) fn read_settings(record: &[u8], place: u16, count: u8, settings: &mut [i32])
    requires { count ≤ length settings.old }
{
    fill(settings, count as u16, |j| {
        bytes::value32(record, place as usize + 4 * (j as usize))
    });
}

// The head of a made file tells how many inputs it has.
fn print_made(rt: &impl Print, k: usize, made: Made, out: &[u8]) -> io::Result<()> {
    let counts = Counts {
        types: 0,
        inputs: bytes::number16(out, 4),
        nodes: made.nodes,
    };
    print::line(rt, k, &[0, 0, made.steps as usize, made.nodes as usize])?;
    print::hexadecimal(rt, out, file_size(counts))
}

fn print_told(
    rt: &impl Print,
    k: usize,
    told: Result<Made, Unfinished>,
    out: &[u8],
) -> io::Result<()> {
    match told {
        Ok(made) => print_made(rt, k, made, out),
        Err(u) => print::line(
            rt,
            k,
            &[
                u.refusal.number as usize,
                u.refusal.place,
                u.steps as usize,
                0,
            ],
        ),
    }
}

fn mode_of(record: &[u8]) -> Mode {
    if at(record, 0, 0) == 1 {
        Mode::BareRun
    } else {
        Mode::Making
    }
}

// The stores and the output are lent as long as the record says.
pub(crate) fn try_call(rt: &impl Print, k: usize, record: &[u8]) -> io::Result<()> {
    let mut settings = [0; 255];
    let mut heap = [0; HEAP];
    let mut codes = [0; CODES];
    let mut space = [0; MAX_BYTES];
    let count = at(record, 17, 0);
    let given = count as usize;
    let file = 18 + 4 * given;
    if record.len() < file {
        return Ok(());
    }
    read_settings(record, 18, count, &mut settings);
    let store = lent(record, 5, HEAP);
    let code = lent(record, 9, CODES);
    let room = lent(record, 13, MAX_BYTES);
    let out = &mut space[..room];
    let told = with_script(&record[file..], |n, columns| {
        make(
            mode_of(record),
            n,
            columns,
            &settings[..given],
            bytes::number32(record, 1),
            &mut heap[..store],
            &mut codes[..code],
            out,
        )
    });
    print_told(rt, k, told, &space[..room])
}
