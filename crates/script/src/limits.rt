// The limits of a script, each in one place.
ghost use Rattle.std.specs.Prelude.{◌≡◌};
ghost use Rattle.script.specs.Refusals.{counts_right};

use crate::Counts;

pub const MAX_TYPES: usize = 64;

pub const MAX_INPUTS: usize = 16;

pub const MAX_NODES: usize = 4096;

pub const MAX_HEIGHT: usize = 256;

// A script of at most so many nodes is checked in arrays of this length: to clear longer ones could take as long as the check.
pub const FEW_NODES: usize = 128;

// "64 listed types, 16 inputs, 1 to 4,096 nodes"
#[tactic(auto, unfolding(crate::specs::Refusals::counts_right, lambdamix::specs::Limits::max_types, lambdamix::specs::Limits::max_inputs, lambdamix::specs::Limits::max_nodes))]
pub fn counts_right(n: Counts) -> bool
    ensures { result ≡ counts_right n.types n.inputs n.nodes }
{
    let types = n.types as usize;
    let inputs = n.inputs as usize;
    let nodes = n.nodes as usize;
    types <= MAX_TYPES && inputs <= MAX_INPUTS && 1 <= nodes && nodes <= MAX_NODES
}
