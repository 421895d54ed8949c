// The reader.
ghost use Rattle.std.specs.Prelude.{◌≡◌};
ghost use Rattle.script.specs.Replies.{holding, reading_reply, ReadsAs};
ghost use Rattle.script.specs.Tables.{tables_of};
ghost use Rattle.scriptmaker.specs.Calls.{read_reply};

use crate::{Counts, ReadReply};
use reading::reader::read;
use script::Refusal;

impl From<Result<script::Counts, Refusal>> for ReadReply {
    ghost from_gives = { λ v r. r ≡ read_reply (reading_reply v) };

    #[tactic(auto, unfolding(crate::specs::Calls::read_reply, crate::specs::Calls::counts_in, script::specs::Replies::reading_reply))]
    fn from(v: Result<script::Counts, Refusal>) -> ReadReply {
        match v {
            Ok(n) => ReadReply {
                number: 0,
                place: 0,
                counts: Counts {
                    types: n.types,
                    inputs: n.inputs,
                    nodes: n.nodes,
                },
            },
            Err(f) => ReadReply {
                number: f.number,
                place: f.place,
                counts: Counts {
                    types: 0,
                    inputs: 0,
                    nodes: 0,
                },
            },
        }
    }
}

// Refusals 1 to 8, then 21; what is not refused fills the lent tables.
pub fn scriptmaker_read(
    file: &[u8],
    parameters: &mut [u16],
    results: &mut [u16],
    inputs: &mut [u16],
    kinds: &mut [u8],
    a: &mut [u16],
    b: &mut [u16],
    c: &mut [u16],
    values: &mut [i32],
) -> ReadReply
    ensures { ReadsAs (holding read_reply) file.now (tables_of parameters.old results.old inputs.old kinds.old a.old b.old c.old values.old)
        (tables_of parameters.new results.new inputs.new kinds.new a.new b.new c.new values.new) result }
{
    read(file, parameters, results, inputs, kinds, a, b, c, values).into()
}
