// The checker.
ghost use Rattle.std.specs.Prelude.{◌≡◌};
ghost use Rattle.script.specs.Replies.{holding, verdict_reply, TellsAs};
ghost use Rattle.script.specs.Tables.{tables_of};
ghost use Rattle.annotation.specs.Checks.{check_refusal};
ghost use Rattle.scriptmaker.specs.Calls.{check_reply};

use crate::{CheckReply, Counts};
use annotation::check::check;
use script::Refusal;
use script::columns::Columns;

impl From<Result<(), Refusal>> for CheckReply {
    ghost from_gives = { λ v r. r ≡ check_reply (verdict_reply v) };

    #[tactic(auto, unfolding(crate::specs::Calls::check_reply, script::specs::Replies::verdict_reply))]
    fn from(v: Result<(), Refusal>) -> CheckReply {
        match v {
            Ok(()) => CheckReply {
                number: 0,
                place: 0,
            },
            Err(f) => CheckReply {
                number: f.number,
                place: f.place,
            },
        }
    }
}

// Refusals 1 to 8 as the file of the tables, then 9 to 11.
pub fn scriptmaker_check(
    n: Counts,
    parameters: &[u16],
    results: &[u16],
    inputs: &[u16],
    kinds: &[u8],
    a: &[u16],
    b: &[u16],
    c: &[u16],
    values: &[i32],
) -> CheckReply
    ensures { TellsAs (holding check_reply) (check_refusal n.types n.inputs n.nodes (tables_of parameters.now results.now inputs.now kinds.now a.now b.now c.now values.now)) result }
{
    let columns = Columns {
        parameters,
        results,
        inputs,
        kinds,
        a,
        b,
        c,
        values,
    };
    check(n.into(), &columns).into()
}
