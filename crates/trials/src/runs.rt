// A call of the plain run: number, place and steps of its reply, 1 if it gave a function, and the number that it gave.
// The record tells the fuel, how many places of the store are lent, the numbers, and the script file.
use crate::makes::{HEAP, lent, read_settings};
use crate::print;
use crate::task::with_script;
use plainrun::run::run;
use plainrun::{Finished, Value};
use reading::bytes;
use script::column::at;
use script::{Refusal, Unfinished};
use std::io;

fn print_reply(
    rt: &impl Print,
    refusal: Refusal,
    steps: u16,
    function: usize,
    value: i32,
) -> io::Result<()> {
    print::numbers(
        rt,
        refusal.number as usize,
        &[refusal.place, steps as usize, function],
    )?;
    print::signed(rt, value)?;
    print::end(rt)
}

// A success has number 0 and place 0.
pub(crate) fn print_told(rt: &impl Print, told: Result<Finished, Unfinished>) -> io::Result<()> {
    let nothing = Refusal {
        number: 0,
        place: 0,
    };
    match told {
        Ok(
            Finished {
                value: Value::Number(z),
                steps,
            },
        ) => print_reply(rt, nothing, steps, 0, z),
        Ok(
            Finished {
                value: Value::Function,
                steps,
            },
        ) => print_reply(rt, nothing, steps, 1, 0),
        Err(u) => print_reply(rt, u.refusal, u.steps, 0, 0),
    }
}

pub(crate) fn run_file(
    file: &[u8],
    numbers: &[i32],
    fuel: u32,
    heap: &mut [u64],
) -> Result<Finished, Unfinished> {
    with_script(file, |n, columns| run(n, columns, numbers, fuel, heap))
}

// The store is lent as long as the record says.
pub(crate) fn try_run(rt: &impl Print, k: usize, record: &[u8]) -> io::Result<()> {
    let mut numbers = [0; 255];
    let mut heap = [0; HEAP];
    let count = at(record, 8, 0);
    let given = count as usize;
    let file = 9 + 4 * given;
    if record.len() < file {
        return Ok(());
    }
    read_settings(record, 9, count, &mut numbers);
    let fuel = bytes::number32(record, 0);
    let store = lent(record, 4, HEAP);
    print!(rt; "{k} ")?;
    print_told(
        rt,
        run_file(&record[file..], &numbers[..given], fuel, &mut heap[..store]),
    )
}
