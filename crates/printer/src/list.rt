// The listing of a script in lent tables.
ghost use Rattle.std.specs.Prelude.{min, ◌≤◌, length};
ghost use Rattle.lambdamix.specs.Limits.{max_nodes};
ghost use Rattle.script.specs.Tables.{tables_in};
ghost use Rattle.printer.specs.ListCalls.{ListsTables};
ghost use Rattle.printer.specs.NodeLists.{Lists, WritesList};

use layout::walk::whole;
use script::cause::Cause;
use script::columns::Columns;
use script::limits::{FEW_NODES, MAX_NODES};
use script::widths::tables_fit;
use script::{Counts, Refusal};
use tables::refusal::tables_packed;

// Nodes in words: a first walk, which is lent no room, finds how long the listing is; a second writes it. No listing of a script past
// refusals 1 to 8 passes 65,536 bytes.
#[tactic(auto, using(crate::proofs::Printed::untouched, crate::proofs::Printed::lists_written))]
fn list_words(n: Counts, words: &[u64], out: &mut [u8]) -> Result<usize, Refusal>
    ensures { Lists n words.now out.old out.new result }
{
    let length = whole(n, words, &mut out[..0]);
    if length <= out.len() {
        whole(n, words, out);
        return Ok(length);
    }
    Err(Cause::OutputTooShort.at(0))
}

// With words for at most N nodes.
#[tactic(auto, using(crate::proofs::Told::refused_reply, crate::proofs::Told::refused_output, crate::proofs::Told::passed_reply, crate::proofs::Told::passed_output), unfolding(lambdamix::specs::Limits::max_nodes))]
fn list_sized<const N: usize>(
    n: Counts,
    columns: &Columns,
    out: &mut [u8],
) -> Result<usize, Refusal>
    requires nodes_le_N { min n.nodes max_nodes ≤ N }
    requires N_le_max_nodes { N ≤ max_nodes }
    ensures { WritesList n (tables_in columns.now) out.old out.new result }
{
    let mut words = [0u64; N];
    tables_packed(n, columns, &mut words)?;
    list_words(n, &words, out)
}

// Refusals 1 to 8 of counts and tables, then 21; what is not refused is listed into the lent output. A script of few nodes is listed in few words, since to
// clear many could take as long as the call.
#[tactic(auto, unfolding(lambdamix::specs::Limits::max_nodes))]
pub fn list(n: Counts, columns: &Columns, out: &mut [u8]) -> Result<usize, Refusal>
    ensures { ListsTables n (tables_in columns.now) out.old out.new result }
{
    tables_fit(n, columns);
    if (n.nodes as usize) <= FEW_NODES {
        return list_sized::<FEW_NODES>(n, columns, out);
    }
    list_sized::<MAX_NODES>(n, columns, out)
}
