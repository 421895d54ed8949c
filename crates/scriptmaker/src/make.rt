// Making, and the bare run.
ghost use Rattle.std.specs.Prelude.{◌≡◌};
ghost use Rattle.script.specs.Replies.{holding};
ghost use Rattle.script.specs.Tables.{tables_of};
ghost use Rattle.residual.specs.AfterRun.{replied};
ghost use Rattle.specializer.specs.Entry.{MakesAs};
ghost use Rattle.scriptmaker.specs.Calls.{counts_of, make_reply};
ghost use Rattle.cells.specs.Room.{stores};

use crate::{Counts, MakeReply};
use lambdamix::Mode;
use residual::Made;
use script::Unfinished;
use script::columns::Columns;
use specializer::make::make;

impl From<Result<Made, Unfinished>> for MakeReply {
    ghost from_gives = { λ v r. r ≡ make_reply (replied v) };

    #[tactic(auto, unfolding(crate::specs::Calls::make_reply, residual::specs::AfterRun::replied, residual::specs::AfterRun::number_in, residual::specs::AfterRun::place_in, residual::specs::AfterRun::steps_in, residual::specs::AfterRun::nodes_in))]
    fn from(v: Result<Made, Unfinished>) -> MakeReply {
        match v {
            Ok(m) => MakeReply {
                number: 0,
                place: 0,
                steps: m.steps,
                nodes: m.nodes,
            },
            Err(u) => MakeReply {
                number: u.refusal.number,
                place: u.refusal.place,
                steps: u.steps,
                nodes: 0,
            },
        }
    }
}

// The making of a script: refusals 1 to 13 and 20, the run, 26, 21.
pub fn scriptmaker_make(
    n: Counts,
    parameters: &[u16],
    results: &[u16],
    inputs: &[u16],
    kinds: &[u8],
    a: &[u16],
    b: &[u16],
    c: &[u16],
    values: &[i32],
    settings: &[i32],
    fuel: u32,
    heap: &mut [u64],
    codes: &mut [u64],
    out: &mut [u8],
) -> MakeReply
    ensures { MakesAs (holding make_reply) Mode.Making (counts_of n) (tables_of parameters.now results.now inputs.now kinds.now a.now b.now c.now values.now)
        settings.now fuel (stores heap.old codes.old) (stores heap.new codes.new) out.old out.new result }
{
    let columns = Columns {
        parameters,
        results,
        inputs,
        kinds,
        a,
        b,
        c,
        values,
    };
    make(
        Mode::Making,
        n.into(),
        &columns,
        settings,
        fuel,
        heap,
        codes,
        out,
    )
    .into()
}

// "There is also a bare run, which leaves out refusals 9 to 11 and meets bad marks as stop 27."
pub fn scriptmaker_bare_run(
    n: Counts,
    parameters: &[u16],
    results: &[u16],
    inputs: &[u16],
    kinds: &[u8],
    a: &[u16],
    b: &[u16],
    c: &[u16],
    values: &[i32],
    settings: &[i32],
    fuel: u32,
    heap: &mut [u64],
    codes: &mut [u64],
    out: &mut [u8],
) -> MakeReply
    ensures { MakesAs (holding make_reply) Mode.BareRun (counts_of n) (tables_of parameters.now results.now inputs.now kinds.now a.now b.now c.now values.now)
        settings.now fuel (stores heap.old codes.old) (stores heap.new codes.new) out.old out.new result }
{
    let columns = Columns {
        parameters,
        results,
        inputs,
        kinds,
        a,
        b,
        c,
        values,
    };
    make(
        Mode::BareRun,
        n.into(),
        &columns,
        settings,
        fuel,
        heap,
        codes,
        out,
    )
    .into()
}
