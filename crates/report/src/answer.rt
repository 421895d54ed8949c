// The program's answer to an input.
ghost use Rattle.streams.specs.Responds.{Responds};
ghost use Rattle.streams.specs.Answers.{Answers};
ghost use Rattle.report.specs.Report.{report};
ghost use Rattle.report.specs.Stages.{ran_texts};

use crate::lines::{print_reply, print_unfinished};
use crate::stage::run_given;
use reading::reader::read_tables;
use script::Refusal;
use script::tables::ScriptTables;
use streams::room::answered;
use streams::split::script_end;

// The script is read into tables that start as zeros; what is not refused is run and told.
fn answer(input: &[u8], out: &mut [u8]) -> usize
    ensures { Answers ran_texts input.now out.old out.new result }
{
    let (script, rest) = input.split_at(script_end(input));
    let mut tables = ScriptTables::new();
    match read_tables(script, &mut tables) {
        Ok(n) => print_reply(out, run_given(n, &tables.columns(), rest)),
        Err(f) => print_unfinished(out, f),
    }
}

// Every input is answered by the bytes that the program prints for it. An output that may be too short for them is 21, before all else.
pub fn respond(input: &[u8], out: &mut [u8]) -> Result<usize, Refusal>
    ensures { Responds (report input.now) out.old out.new result }
{
    answered(out, |space| answer(input, space))
}
