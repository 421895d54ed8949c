// The refusal of the first record that fails its test.
ghost use Rattle.std.specs.Prelude.{◌≡◌};
ghost use Rattle.lambdamix.specs.Refusal.{or_else};
ghost use Rattle.script.specs.File.{type_offset, input_offset, node_offset};
ghost use Rattle.script.specs.Refusals.{refused_record};
ghost use Rattle.script.specs.Verdicts.{found_at, refusal_of, FoundBelow};

use script::cause::Cause;
use script::place::{input_offset, node_offset, type_offset};
use script::{Name, NodeNumber, Refusal};

// The first bad record of three searches: 4 for a type or an input, 5 for a node.
pub(crate) fn record_refusal(
    types: u16,
    inputs: u16,
    bad_type: Option<usize>,
    bad_input: Option<usize>,
    bad_node: Option<usize>,
) -> Result<(), Refusal>
    requires { FoundBelow 65536 bad_type × (FoundBelow 65536 bad_input × FoundBelow 65536 bad_node) }
    ensures { refusal_of result ≡ or_else (refused_record 4 type_offset (found_at bad_type)) (or_else (refused_record 4 (input_offset types) (found_at bad_input)) (refused_record 5 (node_offset types inputs) (found_at bad_node))) }
{
    if let Some(j) = bad_type {
        return Err(Cause::BadRecord.at(type_offset(j as u16) as usize));
    }
    if let Some(j) = bad_input {
        return Err(Cause::BadRecord.at(input_offset(types, Name(j as u16)) as usize));
    }
    if let Some(j) = bad_node {
        return Err(Cause::BadNode.at(node_offset(types, inputs, NodeNumber(j as u16)) as usize));
    }
    Ok(())
}
