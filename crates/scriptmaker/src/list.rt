// The listing.
ghost use Rattle.script.specs.Replies.{holding};
ghost use Rattle.script.specs.Tables.{tables_of};
ghost use Rattle.printer.specs.ListCalls.{ListsAs};
ghost use Rattle.scriptmaker.specs.Calls.{counts_of, write_reply};

use crate::{Counts, WriteReply};
use printer::list::list;
use script::columns::Columns;

// Tables shorter than the counts: 1 [0]; then 3 to 8, then 21; what is not refused is listed.
pub fn scriptmaker_list(
    n: Counts,
    parameters: &[u16],
    results: &[u16],
    inputs: &[u16],
    kinds: &[u8],
    a: &[u16],
    b: &[u16],
    c: &[u16],
    values: &[i32],
    out: &mut [u8],
) -> WriteReply
    ensures { ListsAs (holding write_reply) (counts_of n) (tables_of parameters.now results.now inputs.now kinds.now a.now b.now c.now values.now) out.old out.new result }
{
    let columns = Columns {
        parameters,
        results,
        inputs,
        kinds,
        a,
        b,
        c,
        values,
    };
    list(n.into(), &columns, out).into()
}
