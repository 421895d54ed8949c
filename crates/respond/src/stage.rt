// The stages between reading and printing: the maker with the settings behind a script, and the listing of the file that it wrote.
ghost use Rattle.script.specs.Tables.{tables_in};
ghost use Rattle.streams.specs.Answers.{AnswersScript};
ghost use Rattle.respond.specs.Stages.{MakesGiven, ListsAt, ListsFile, PrintsMade, made_texts};

use crate::limits::{CODES, FUEL, HEAP};
use lambdamix::Mode;
use printer::list::list;
use reading::reader::read_tables;
use residual::Made;
use script::columns::Columns;
use script::place::file_size;
use script::tables::ScriptTables;
use script::{Counts, Unfinished};
use specializer::make::make;
use streams::limits::{MAX_BYTES, SETTINGS};
use streams::print::{print_counts, print_unmade};
use streams::settings::settings_given;

// The maker on a script that was read, with the settings that follow it and stores that start as zeros.
fn make_given(
    n: Counts,
    columns: &Columns,
    rest: &[u8],
    file: &mut [u8],
) -> Result<Made, Unfinished>
    ensures { MakesGiven n (tables_in columns.now) rest.now file.old file.new result }
{
    let mut settings = [0; SETTINGS];
    let count = settings_given(rest, &mut settings);
    let mut heap = [0; HEAP];
    let mut codes = [0; CODES];
    make(
        Mode::Making,
        n,
        columns,
        &settings[..count],
        FUEL as u32,
        &mut heap,
        &mut codes,
        file,
    )
}

// The listing of counts and tables from a place of the output on.
fn list_at(n: Counts, columns: &Columns, out: &mut [u8], at: usize) -> usize
    ensures { ListsAt n (tables_in columns.now) at out.old out.new result }
{
    let from = at.min(out.len());
    at.saturating_add(list(n, columns, &mut out[from..]).unwrap_or(0))
}

// The listing of a script file from a place of the output on, by way of tables that start as zeros.
fn list_file(file: &[u8], out: &mut [u8], at: usize) -> usize
    ensures { ListsFile file.now at out.old out.new result }
{
    let mut tables = ScriptTables::new();
    match read_tables(file, &mut tables) {
        Ok(n) => list_at(n, &tables.columns(), out, at),
        Err(_) => at,
    }
}

// Finished code, of a count of inputs, from the file that the maker wrote.
#[tactic(auto, using(crate::proofs::Holding::made_printed))]
fn print_made(inputs: u16, made: Made, file: &[u8], out: &mut [u8]) -> usize
    ensures { PrintsMade inputs made.steps made.nodes file.now out.old out.new result }
{
    let counts = Counts {
        types: 0,
        inputs,
        nodes: made.nodes,
    };
    let end = file_size(counts).min(file.len());
    let at = print_counts(out, made.steps, made.nodes);
    list_file(&file[..end], out, at)
}

// What was read, with what follows it.
pub(crate) fn answer_script(n: Counts, columns: &Columns, rest: &[u8], out: &mut [u8]) -> usize
    ensures { AnswersScript made_texts n (tables_in columns.now) rest.now out.old out.new result }
{
    let mut file = [0; MAX_BYTES];
    match make_given(n, columns, rest, &mut file) {
        Ok(made) => print_made(n.inputs, made, &file, out),
        Err(u) => print_unmade(out, u.refusal),
    }
}
