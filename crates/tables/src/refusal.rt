// The check of counts and tables: refusals 1 to 8.
ghost use Rattle.std.specs.Prelude.{◌≡◌, min, ◌≤◌, length};
ghost use Rattle.lambdamix.specs.Limits.{max_nodes};
ghost use Rattle.script.specs.Refusals.{script_refusal};
ghost use Rattle.script.specs.Tables.{tables_script, tables_refusal, tables_in};
ghost use Rattle.script.specs.Replies.{Tells};
ghost use Rattle.script.specs.Verdicts.{refusal_of};
ghost use Rattle.tables.specs.PackedTables.{HoldNodes, PackedTables};

use crate::content::content_refusal;
use script::cause::Cause;
use script::columns::Columns;
use script::limits::{FEW_NODES, MAX_NODES};
use script::{Counts, Refusal};
use walks::structure::structure_refusal;

// Refusals 3 to 8. Where the contents pass, the words hold the nodes.
fn script_refusal(n: Counts, columns: &Columns, words: &mut [u64]) -> Result<(), Refusal>
    requires hold_nodes { HoldNodes n.nodes columns.now }
    requires max_nodes_in_bounds { min n.nodes max_nodes ≤ length words.old }
    ensures reply { refusal_of result ≡ script_refusal (tables_script n.types n.inputs n.nodes (tables_in columns.now)) }
    ensures packed { PackedTables result n.nodes (tables_in columns.now) words.new }
{
    content_refusal(n, columns, words)?;
    structure_refusal(words, n.inputs, n.nodes as usize)
}

// "tables shorter than the counts give 1 [0] before all else", then refusals 3 to 8.
fn packed_refusal(n: Counts, columns: &Columns, words: &mut [u64]) -> Result<(), Refusal>
    requires { min n.nodes max_nodes ≤ length words.old }
    ensures reply { refusal_of result ≡ tables_refusal n.types n.inputs n.nodes (tables_in columns.now) }
    ensures packed { PackedTables result n.nodes (tables_in columns.now) words.new }
{
    if !columns.hold(n) {
        return Err(Cause::WrongLength.at(0));
    }
    script_refusal(n, columns, words)
}

// Refusals 1 to 8 of counts and tables, with words for at most N nodes.
#[tactic(auto, unfolding(lambdamix::specs::Limits::max_nodes))]
fn tables_refusal_of<const N: usize>(n: Counts, columns: &Columns) -> Result<(), Refusal>
    requires nodes_le_N { min n.nodes max_nodes ≤ N }
    requires N_le_max_nodes { N ≤ max_nodes }
    ensures { refusal_of result ≡ tables_refusal n.types n.inputs n.nodes (tables_in columns.now) }
{
    let mut words = [0u64; N];
    packed_refusal(n, columns, &mut words)
}

// Refusals 1 to 8 of counts and tables. Few nodes have few words, and nobody clears more: docs/SPEED.md, 2.
#[tactic(auto, using(script::proofs::ReplyLaws::refusal_tells), unfolding(lambdamix::specs::Limits::max_nodes))]
pub fn tables_refusal(n: Counts, columns: &Columns) -> Result<(), Refusal>
    ensures { Tells (tables_refusal n.types n.inputs n.nodes (tables_in columns.now)) result }
{
    if (n.nodes as usize) <= FEW_NODES {
        return tables_refusal_of::<FEW_NODES>(n, columns);
    }
    tables_refusal_of::<MAX_NODES>(n, columns)
}

// The same, and where nothing is refused the nodes in the lent words. Where there are too few words it tells nothing of the tables, and does not pass.
pub fn tables_packed(n: Counts, columns: &Columns, words: &mut [u64]) -> Result<(), Refusal>
    ensures reply { min n.nodes max_nodes ≤ length words.old → Tells (tables_refusal n.types n.inputs n.nodes (tables_in columns.now)) result }
    ensures packed { PackedTables result n.nodes (tables_in columns.now) words.new }
{
    if words.len() < MAX_NODES.min(n.nodes as usize) {
        return Err(Cause::WrongLength.at(0));
    }
    packed_refusal(n, columns, words)
}
