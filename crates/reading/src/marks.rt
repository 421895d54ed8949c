// Marks of records: refusal 2.
ghost use Rattle.std.specs.Prelude.{◌≡◌, ◌+◌, ◌*◌};
ghost use Rattle.lambdamix.specs.Refusal.{first_failing};
ghost use Rattle.script.specs.Refusals.{marked, refused_record, mark_refusal};
ghost use Rattle.script.specs.Verdicts.{refusal_of};

use crate::bytes::pair;
use script::cause::Cause;
use script::place::{input_offset, node_offset, type_offset};
use script::search::first_failing;
use script::{Counts, Name, NodeNumber, Refusal};

// Whether the two letters stand at a place; past the end stand zeros.
#[tactic(auto, unfolding(script::specs::Refusals::marked))]
pub fn marked(file: &[u8], at: usize, x: u8, y: u8) -> bool
    ensures { result ≡ marked x y file.now at }
{
    let [first, second] = pair(file, at);
    first == x && second == y
}

// Where record j stands, of records at equal distances.
fn place(first: u32, stride: u8, j: u16) -> usize
    ensures { result ≡ first + stride * j }
{
    first as usize + stride as usize * j as usize
}

// The first record without its mark, of records at equal distances.
fn unmarked(file: &[u8], first: u32, stride: u8, count: u16, x: u8, y: u8) -> Result<(), Refusal>
    ensures { refusal_of result ≡ refused_record 2 (λ j. first + stride * j) (first_failing (λ j. marked x y file.now (first + stride * j)) 0 count) }
{
    match first_failing(count as usize, |j| {
        marked(file, place(first, stride, j as u16), x, y)
    }) {
        Some(j) => Err(Cause::WrongMark.at(place(first, stride, j as u16))),
        None => Ok(()),
    }
}

// The marks of types, inputs and nodes, in this order.
pub(crate) fn mark_refusal(file: &[u8], n: Counts) -> Result<(), Refusal>
    ensures { refusal_of result ≡ mark_refusal file.now n.types n.inputs n.nodes }
{
    unmarked(file, type_offset(0), 6, n.types, b'T', b'Y')?;
    let inputs_at = input_offset(n.types, Name(0));
    unmarked(file, inputs_at, 4, n.inputs, b'I', b'N')?;
    let nodes_at = node_offset(n.types, n.inputs, NodeNumber(0));
    unmarked(file, nodes_at, 13, n.nodes, b'N', b'D')
}
