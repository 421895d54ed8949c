// Where things stand: the records in a file, by the counts of types and of inputs, and the root among the nodes.
ghost use Rattle.std.specs.Prelude.{◌≡◌, ◌-◌};
ghost use Rattle.script.specs.File.{type_offset, input_offset, node_offset, file_length};

use crate::{Counts, Name, NodeNumber};

// Three layouts, as the file format has them.
pub fn type_offset(j: u16) -> u32
    ensures { result ≡ type_offset j }
{
    8 + 6 * (j as u32)
}

// Input k has the name k.
pub fn input_offset(types: u16, k: Name) -> u32
    ensures { result ≡ input_offset types k.0 }
{
    8 + 6 * (types as u32) + 4 * (k.0 as u32)
}

// The place after as many nodes, the next one's own.
fn nodes_end(types: u16, inputs: u16, nodes: u16) -> u32
    ensures { result ≡ node_offset types inputs nodes }
{
    8 + 6 * (types as u32) + 4 * (inputs as u32) + 13 * (nodes as u32)
}

pub fn node_offset(types: u16, inputs: u16, i: NodeNumber) -> u32
    ensures { result ≡ node_offset types inputs i.0 }
{
    nodes_end(types, inputs, i.0)
}

// The length of a file with these counts.
pub fn file_size(n: Counts) -> usize
    ensures { result ≡ file_length n.types n.inputs n.nodes }
{
    nodes_end(n.types, n.inputs, n.nodes) as usize
}

// "the last is the root"
pub fn root(nodes: u16) -> NodeNumber
    ensures { result.0 ≡ nodes - 1 }
{
    NodeNumber(nodes.saturating_sub(1))
}
