// The checker: refusals 1 to 8 of the tables, then 9 to 11.
ghost use Rattle.std.specs.Prelude.{min, ◌≤◌};
ghost use Rattle.lambdamix.specs.Limits.{max_nodes};
ghost use Rattle.script.specs.Replies.{Tells};
ghost use Rattle.script.specs.Tables.{tables_in};
ghost use Rattle.annotation.specs.Checks.{check_refusal};

use crate::typing::annotation_refusal;
use script::columns::Columns;
use script::limits::{FEW_NODES, MAX_NODES};
use script::{Counts, Refusal};
use tables::refusal::tables_packed;

// The check in words for so many nodes: as many as the script has, or as a script may have.
#[tactic(auto, using(crate::proofs::Told::check_refused, crate::proofs::Told::check_passed), unfolding(lambdamix::specs::Limits::max_nodes))]
fn check_sized<const N: usize>(n: Counts, columns: &Columns) -> Result<(), Refusal>
    requires enough { min n.nodes max_nodes ≤ N }
    requires few { N ≤ max_nodes }
    ensures { Tells (check_refusal n.types n.inputs n.nodes (tables_in columns.now)) result }
{
    let mut words = [0u64; N];
    tables_packed(n, columns, &mut words)?;
    annotation_refusal(n, columns, &words)
}

// Every call is answered, and no lent table is touched.
#[tactic(auto, unfolding(lambdamix::specs::Limits::max_nodes))]
pub fn check(n: Counts, columns: &Columns) -> Result<(), Refusal>
    ensures { Tells (check_refusal n.types n.inputs n.nodes (tables_in columns.now)) result }
{
    if (n.nodes as usize) <= FEW_NODES {
        check_sized::<FEW_NODES>(n, columns)
    } else {
        check_sized::<MAX_NODES>(n, columns)
    }
}
