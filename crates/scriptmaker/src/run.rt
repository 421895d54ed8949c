// The plain run.
ghost use Rattle.std.specs.Prelude.{◌≡◌};
ghost use Rattle.script.specs.Replies.{holding};
ghost use Rattle.script.specs.Tables.{tables_of};
ghost use Rattle.plainrun.specs.Running.{replied, RunsAs};
ghost use Rattle.scriptmaker.specs.Calls.{counts_of, run_reply};

use crate::{Counts, RunReply};
use plainrun::run::run;
use plainrun::{Finished, Value};
use script::Unfinished;
use script::columns::Columns;

impl From<Result<Finished, Unfinished>> for RunReply {
    ghost from_gives = { λ v r. r ≡ run_reply (replied v) };

    #[tactic(auto, unfolding(crate::specs::Calls::run_reply, plainrun::specs::Running::replied, plainrun::specs::Running::number_in, plainrun::specs::Running::place_in, plainrun::specs::Running::steps_in, plainrun::specs::Running::function_in, plainrun::specs::Running::value_in))]
    fn from(v: Result<Finished, Unfinished>) -> RunReply {
        match v {
            Ok(
                Finished {
                    value: Value::Number(z),
                    steps,
                },
            ) => RunReply {
                number: 0,
                place: 0,
                steps,
                function: 0,
                value: z,
            },
            Ok(
                Finished {
                    value: Value::Function,
                    steps,
                },
            ) => RunReply {
                number: 0,
                place: 0,
                steps,
                function: 1,
                value: 0,
            },
            Err(u) => RunReply {
                number: u.refusal.number,
                place: u.refusal.place,
                steps: u.steps,
                function: 0,
                value: 0,
            },
        }
    }
}

// The plain run of a script on a number for every input: refusals 1 to 8, 12, 13, 20; the run, with stops 22 to 25, 28 and 29.
pub fn scriptmaker_run(
    n: Counts,
    parameters: &[u16],
    results: &[u16],
    inputs: &[u16],
    kinds: &[u8],
    a: &[u16],
    b: &[u16],
    c: &[u16],
    values: &[i32],
    numbers: &[i32],
    fuel: u32,
    heap: &mut [u64],
) -> RunReply
    ensures { RunsAs (holding run_reply) (counts_of n) (tables_of parameters.now results.now inputs.now kinds.now a.now b.now c.now values.now)
        numbers.now fuel heap.old heap.new result }
{
    let columns = Columns {
        parameters,
        results,
        inputs,
        kinds,
        a,
        b,
        c,
        values,
    };
    run(n.into(), &columns, numbers, fuel, heap).into()
}
