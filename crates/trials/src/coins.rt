// A call that makes bands: number, place and length of its reply; of a made script the bytes of its file, and then, if the checker accepts it, for each reading the
// reply of its plain run. The record tells the count of rows, how many places of the output are lent, the columns behind their lengths, and the readings.
ghost use Rattle.std.specs.Prelude.{◌≤◌};

use crate::makes::{HEAP, lent, read_settings};
use crate::print;
use crate::runs::{print_told, run_file};
use crate::scripts::check_file;
use bands::maker::bands;
use bands::rows::Rows;
use cells::limits::MAX_FUEL;
use reading::bytes;
use script::column::at;
use std::io;

// The places of the longest column and of the longest output.
const PLACES: u8 = 40;

const ROOM: usize = 4096;

// The readings of a record, behind their count at a place, each graded by a plain run of its own.
fn grade_each(rt: &impl Print, record: &[u8], place: u16, file: &[u8]) -> io::Result<()> {
    let mut heap = [0; HEAP];
    let from = place as usize;
    for j in 0..bytes::number16(record, from) {
        let reading = bytes::value32(record, from + 2 + 4 * (j as usize));
        print_told(rt, run_file(file, &[reading], MAX_FUEL, &mut heap))?;
    }
    Ok(())
}

fn print_made(rt: &impl Print, record: &[u8], place: u16, file: &[u8]) -> io::Result<()> {
    print::hexadecimal(rt, file, file.len())?;
    if check_file(file).is_ok() {
        grade_each(rt, record, place, file)
    } else {
        print::end(rt)
    }
}

// The length of a column.
fn places(record: &[u8], place: usize) -> u8
    ensures { result ≤ 40 }
{
    let n = at(record, place, 0);
    if n <= PLACES { n } else { 0 }
}

// Columns and output are lent as long as the record says.
pub(crate) fn try_call(rt: &impl Print, k: usize, record: &[u8]) -> io::Result<()> {
    let mut low = [0; PLACES as usize];
    let mut high = [0; PLACES as usize];
    let mut grade = [0; PLACES as usize];
    let mut space = [0; ROOM];
    let lows = places(record, 6);
    let highs = places(record, 7);
    let grades = places(record, 8);
    let highs_at = 9 + 4 * (lows as u16);
    let grades_at = highs_at + 4 * (highs as u16);
    let readings_at = grades_at + 4 * (grades as u16);
    read_settings(record, 9, lows, &mut low);
    read_settings(record, highs_at, highs, &mut high);
    read_settings(record, grades_at, grades, &mut grade);
    let rows = Rows {
        low: &low[..lows as usize],
        high: &high[..highs as usize],
        grade: &grade[..grades as usize],
    };
    let room = lent(record, 2, ROOM);
    let out = &mut space[..room];
    match bands(bytes::number16(record, 0), &rows, out) {
        Err(f) => print::line(rt, k, &[f.number as usize, f.place, 0]),
        Ok(length) => {
            print::line(rt, k, &[0, 0, length])?;
            if length <= out.len() {
                print_made(rt, record, readings_at, &out[..length])?;
            }
            Ok(())
        }
    }
}
