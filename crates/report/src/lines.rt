// The lines that `benchrun` prints. Each part is written into what remains of the lent output.
ghost use Rattle.std.specs.Prelude.{ltb, ◌++◌, ◌≤◌, length};
ghost use Rattle.lambdamix.specs.Text.{ascii};
ghost use Rattle.plainrun.specs.Running.{outcome_of, replied};
ghost use Rattle.text.specs.Places.{Placed};
ghost use Rattle.streams.specs.Printed.{Prints};
ghost use Rattle.report.specs.Report.{steps_text, outcome_text, reply_text, unfinished_text};

use plainrun::{Finished, Value};
use script::{Refusal, Unfinished};
use streams::print::print_pair;
use text::decimals::{decimal_at, digits_at};
use text::parts::{letter_at, text_at};

// "`steps N`", on its own line.
fn print_steps(out: &mut [u8], steps: u16) -> usize
    ensures { Placed (steps_text steps) 0 out.old out.new result }
{
    let one = text_at(out, 0, b"steps ");
    let two = digits_at(out, one, steps as u32);
    letter_at(out, two, b'\n')
}

// "the number or `a function`"
fn print_value(out: &mut [u8], at: usize, value: Value) -> usize
    ensures placed { Placed (outcome_text (outcome_of value)) at out.old out.new result }
    ensures short { length (outcome_text (outcome_of value)) ≤ 21 }
{
    match value {
        Value::Number(z) => decimal_at(out, at, z),
        Value::Function => text_at(out, at, b"a function"),
    }
}

// What was given, on its own line behind the steps.
fn print_finished(out: &mut [u8], done: Finished) -> usize
    ensures { Prints (steps_text done.steps ++ outcome_text (outcome_of done.value) ++ ascii "\n") out.old out.new result }
{
    let one = print_steps(out, done.steps);
    let two = print_value(out, one, done.value);
    letter_at(out, two, b'\n')
}

// "`refused N P` alone, or `stopped N P` alone": the other program's lines have `accepted` before a stop.
pub(crate) fn print_unfinished(out: &mut [u8], f: Refusal) -> usize
    ensures { Prints (unfinished_text (ltb f.number 20) f.number f.place) out.old out.new result }
{
    if f.number < 20 {
        return print_pair(out, b"refused ", f.number as u32, b" ", f.place as u64);
    }
    print_pair(out, b"stopped ", f.number as u32, b" ", f.place as u64)
}

// The lines of a reply.
#[tactic(auto, unfolding(plainrun::specs::Running::replied, crate::specs::Report::reply_text))]
pub(crate) fn print_reply(out: &mut [u8], reply: Result<Finished, Unfinished>) -> usize
    ensures { Prints (reply_text (replied reply)) out.old out.new result }
{
    match reply {
        Ok(done) => print_finished(out, done),
        Err(u) => print_unfinished(out, u.refusal),
    }
}
