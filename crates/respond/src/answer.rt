// The program's answer to an input.
ghost use Rattle.streams.specs.Responds.{Responds};
ghost use Rattle.streams.specs.Answers.{Answers};
ghost use Rattle.respond.specs.Response.{response};
ghost use Rattle.respond.specs.Stages.{made_texts};

use crate::stage::answer_script;
use reading::reader::read_tables;
use script::Refusal;
use script::tables::ScriptTables;
use streams::print::print_unmade;
use streams::room::answered;
use streams::split::script_end;

// The script is read into tables that start as zeros; what is not refused is made and printed.
fn answer(input: &[u8], out: &mut [u8]) -> usize
    ensures { Answers made_texts input.now out.old out.new result }
{
    let (script, rest) = input.split_at(script_end(input));
    let mut tables = ScriptTables::new();
    match read_tables(script, &mut tables) {
        Ok(n) => answer_script(n, &tables.columns(), rest, out),
        Err(f) => print_unmade(out, f),
    }
}

// Every input is answered by the bytes that the program prints for it. An output that may be too short for them is 21, before all else.
#[tactic(auto, using(crate::proofs::Calls::input_written, crate::proofs::Calls::short_told, crate::proofs::Calls::short_left), unfolding(crate::specs::Response::response, lambdamix::specs::Limits::max_bytes))]
pub fn respond(input: &[u8], out: &mut [u8]) -> Result<usize, Refusal>
    ensures { Responds (response input.now) out.old out.new result }
{
    answered(out, |space| answer(input, space))
}
