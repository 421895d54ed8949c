// The writer.
ghost use Rattle.std.specs.Prelude.{◌≡◌};
ghost use Rattle.script.specs.Replies.{holding, writing_reply, WritesAs};
ghost use Rattle.script.specs.Tables.{tables_of};
ghost use Rattle.scriptmaker.specs.Calls.{counts_of, write_reply};

use crate::{Counts, WriteReply};
use file::writer::write;
use script::Refusal;
use script::columns::Columns;

impl From<Result<usize, Refusal>> for WriteReply {
    ghost from_gives = { λ v r. r ≡ write_reply (writing_reply v) };

    #[tactic(auto, unfolding(crate::specs::Calls::write_reply, crate::specs::Calls::length_in, script::specs::Replies::writing_reply))]
    fn from(v: Result<usize, Refusal>) -> WriteReply {
        match v {
            Ok(k) => WriteReply {
                number: 0,
                place: 0,
                length: k,
            },
            Err(f) => WriteReply {
                number: f.number,
                place: f.place,
                length: 0,
            },
        }
    }
}

// Tables shorter than the counts: 1 [0]; then the refusals of the tables' file; then 21 for a short output.
pub fn scriptmaker_write(
    n: Counts,
    parameters: &[u16],
    results: &[u16],
    inputs: &[u16],
    kinds: &[u8],
    a: &[u16],
    b: &[u16],
    c: &[u16],
    values: &[i32],
    out: &mut [u8],
) -> WriteReply
    ensures { WritesAs (holding write_reply) (counts_of n) (tables_of parameters.now results.now inputs.now kinds.now a.now b.now c.now values.now) out.old out.new result }
{
    let columns = Columns {
        parameters,
        results,
        inputs,
        kinds,
        a,
        b,
        c,
        values,
    };
    write(n.into(), &columns, out).into()
}
