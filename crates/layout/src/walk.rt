// The listing of a script whose nodes stand in words: a walk of its tree by recursion on falling node numbers. What stands first goes by the kind; what a field
// holds is told by the table's row of the kind that an arm names, so that the compiler folds the read. Each function is lent what remains of the output from
// its place on, or writes from a place on into what remains, and gives the next place. Nodes, inputs and words travel in registers: docs/SPEED.md,
// "What was changed", 2, 7 and 13.
ghost use Rattle.std.specs.Prelude.{true, false, ◌++◌, [], ◌∷◌};
ghost use Rattle.lambdamix.specs.Term.{operator_of};
ghost use Rattle.lambdamix.specs.Listing.{operator_text};
ghost use Rattle.script.specs.Words.{word_a, word_b, word_c};
ghost use Rattle.text.specs.Places.{Placed};
ghost use Rattle.layout.specs.Nodes.{field_text, fields_text, words_text, child_text, whole_text};

use crate::words::{name_at, put_sign};
use lambdamix::{Step, Use};
use script::kinds::{self, step_row};
use script::place::root;
use script::word::{field_a, field_b, field_c, kind, node_word, value};
use script::{Counts, Name, NodeNumber, Row};
use text::decimals::decimal_at;
use text::parts::{letter_at, text_at};

// The text of node i.
#[cycle(walk)]
fn node(nodes: &&[u64], inputs: u16, i: NodeNumber, out: &mut [u8]) -> usize
    ensures { Placed (words_text inputs nodes.now.now i.0) 0 out.old out.new result }
{
    let w = node_word(*nodes, i);
    match kind(w) {
        kinds::VARIABLE => bare(nodes, inputs, i, w, step_row(Step::Variable), out),
        kinds::LIFT => bare(nodes, inputs, i, w, step_row(Step::Lift), out),
        kinds::FUNCTION => worded(nodes, inputs, i, w, step_row(Step::Function), b"(lam", out),
        kinds::APPLICATION => worded(
            nodes,
            inputs,
            i,
            w,
            step_row(Step::Application),
            b"(app",
            out,
        ),
        kinds::FIX => worded(nodes, inputs, i, w, step_row(Step::Fix), b"(fix", out),
        kinds::CONDITIONAL => worded(
            nodes,
            inputs,
            i,
            w,
            step_row(Step::Conditional),
            b"(if",
            out,
        ),
        kinds::OPERATION => operation(nodes, inputs, i, w, step_row(Step::Operation), out),
        kinds::DYNAMIC_FUNCTION => worded(
            nodes,
            inputs,
            i,
            w,
            step_row(Step::DynamicFunction),
            b"(lam",
            out,
        ),
        kinds::DYNAMIC_APPLICATION => worded(
            nodes,
            inputs,
            i,
            w,
            step_row(Step::DynamicApplication),
            b"(app",
            out,
        ),
        kinds::DYNAMIC_FIX => worded(
            nodes,
            inputs,
            i,
            w,
            step_row(Step::DynamicFix),
            b"(fix",
            out,
        ),
        kinds::DYNAMIC_IF => worded(nodes, inputs, i, w, step_row(Step::DynamicIf), b"(if", out),
        kinds::DYNAMIC_OPERATION => operation(
            nodes,
            inputs,
            i,
            w,
            step_row(Step::DynamicOperation),
            out,
        ),
        _ => decimal_at(out, 0, value(w)),
    }
}

// The text of node i, which `w` holds, where its kind has no word (a variable, a lift): its first field by its use.
#[cycle(walk)]
fn bare(nodes: &&[u64], inputs: u16, i: NodeNumber, w: u64, row: Row, out: &mut [u8]) -> usize
    ensures { Placed (field_text inputs (child_text inputs nodes.now.now i.0) false row.0 (word_a w)) 0 out.old out.new result }
{
    let x = field_a(w);
    match row.0 {
        Use::Name | Use::Binder => name_at(out, 0, inputs, Name(x)),
        Use::Child => child_at(nodes, inputs, i, NodeNumber(x), out, 0),
        _ => 0,
    }
}

// The text of node i, which `w` holds, in brackets: the opening one with its kind's word, then its fields.
#[cycle(walk)]
fn worded(
    nodes: &&[u64],
    inputs: u16,
    i: NodeNumber,
    w: u64,
    row: Row,
    word: &[u8],
    out: &mut [u8],
) -> usize
    ensures { Placed (word.now ++ (fields_text inputs (child_text inputs nodes.now.now i.0) true row (word_a w) (word_b w) (word_c w) ++ (41 ∷ []))) 0 out.old out.new result }
{
    let head = text_at(out, 0, word);
    group(nodes, inputs, i, w, row, out, head)
}

// The same of an operation, whose word is its sign.
#[cycle(walk)]
fn operation(nodes: &&[u64], inputs: u16, i: NodeNumber, w: u64, row: Row, out: &mut [u8]) -> usize
    ensures { Placed ((40 ∷ operator_text (operator_of (word_c w))) ++ (fields_text inputs (child_text inputs nodes.now.now i.0) true row (word_a w) (word_b w) (word_c w) ++ (41 ∷ []))) 0 out.old out.new result }
{
    let head = put_sign(out, field_c(w));
    group(nodes, inputs, i, w, row, out, head)
}

// The fields of node i, which `w` holds, behind its kind's word and up to the closing bracket; gives the next place.
#[cycle(walk)]
fn group(
    nodes: &&[u64],
    inputs: u16,
    i: NodeNumber,
    w: u64,
    row: Row,
    out: &mut [u8],
    at: usize,
) -> usize
    ensures { Placed (fields_text inputs (child_text inputs nodes.now.now i.0) true row (word_a w) (word_b w) (word_c w) ++ (41 ∷ [])) at out.old out.new result }
{
    let one = spaced_at(nodes, inputs, i, row.0, field_a(w), out, at);
    let two = spaced_at(nodes, inputs, i, row.1, field_b(w), out, one);
    let three = spaced_at(nodes, inputs, i, row.2, field_c(w), out, two);
    letter_at(out, three, b')')
}

// A field of node i by its use, behind a space; gives the next place. Names and binders have an arm each: with one for both the compiler leaves `group` out of
// the arms of `node`, and the listing of a wide tree takes 9 per cent more instructions than docs/SPEED.md tells.
#[cycle(walk)]
fn spaced_at(
    nodes: &&[u64],
    inputs: u16,
    i: NodeNumber,
    u: Use,
    f: u16,
    out: &mut [u8],
    at: usize,
) -> usize
    ensures { Placed (field_text inputs (child_text inputs nodes.now.now i.0) true u f) at out.old out.new result }
{
    match u {
        Use::Name => {
            let next = letter_at(out, at, b' ');
            name_at(out, next, inputs, Name(f))
        }
        Use::Binder => {
            let next = letter_at(out, at, b' ');
            name_at(out, next, inputs, Name(f))
        }
        Use::Child => {
            let next = letter_at(out, at, b' ');
            child_at(nodes, inputs, i, NodeNumber(f), out, next)
        }
        _ => at,
    }
}

// A child of node i, whose number is below, in what remains from a place on; gives the next place. No call of `written_at`: that wants the promise of a front,
// and a walk's text may be longer than any count.
#[cycle(walk)]
fn child_at(
    nodes: &&[u64],
    inputs: u16,
    i: NodeNumber,
    m: NodeNumber,
    out: &mut [u8],
    at: usize,
) -> usize
    ensures { Placed (child_text inputs nodes.now.now i.0 m.0) at out.old out.new result }
{
    if m.0 < i.0 {
        let from = at.min(out.len());
        let n = node(nodes, inputs, m, &mut out[from..]);
        return at.saturating_add(n);
    }
    letter_at(out, at, b'0')
}

// The text of the root, and a newline.
pub fn whole(n: Counts, nodes: &[u64], out: &mut [u8]) -> usize
    ensures { Placed (whole_text n.inputs n.nodes nodes.now) 0 out.old out.new result }
{
    let next = node(&nodes, n.inputs, root(n.nodes), out);
    letter_at(out, next, b'\n')
}
