// The contents of records, read from columns: refusals 3, 4 and 5. The nodes are packed into words as they are read.
ghost use Rattle.std.specs.Prelude.{◌≡◌, ◌<◌, min, ◌≤◌, ◌&&◌, [], ◌∷◌, pos, length};
ghost use Rattle.lambdamix.specs.Arithmetic.{eq_z};
ghost use Rattle.lambdamix.specs.Limits.{max_nodes};
ghost use Rattle.lambdamix.specs.Refusal.{first_failing};
ghost use Rattle.script.specs.Refusals.{other_pair, type_fits, input_fits, field_right, fields_right, node_fits};
ghost use Rattle.script.specs.Verdicts.{found_at, refusal_of};
ghost use Rattle.lambdamix.specs.Code.{node};
ghost use Rattle.script.specs.Tables.{tables_in, row_type, row_input, row_node};
ghost use Rattle.tables.specs.Contents.{content_in};
ghost use Rattle.tables.specs.PackedTables.{HoldNodes, PackedNodes, PackedTables};

use crate::records::record_refusal;
use lambdamix::{Step, Use};
use script::cause::Cause;
use script::column::type_at;
use script::columns::Columns;
use script::kinds::{self, step_row};
use script::limits::counts_right;
use script::search::first_failing;
use script::word::pack_node;
use script::{Counts, NodeNumber, Refusal, Row};

// Whether a field of a node holds what its use asks for.
fn field_right(types: u16, inputs: u16, i: NodeNumber, u: Use, f: u16) -> bool
    ensures { result ≡ field_right types inputs i.0 u f }
{
    match u {
        Use::Nothing => f == 0,
        Use::Name => true,
        Use::Binder => inputs <= f,
        Use::Child => f < i.0,
        Use::ParameterType => (f as usize) < 2 + (types as usize),
        Use::Operation => f < 6,
    }
}

// Whether the fields of a node hold what the row asks for.
fn fields_right(types: u16, inputs: u16, i: NodeNumber, row: Row, a: u16, b: u16, c: u16) -> bool
    ensures { result ≡ fields_right types inputs i.0 (row.0 ∷ row.1 ∷ row.2 ∷ []) (a ∷ b ∷ c ∷ []) }
{
    let Row(u, v, w) = row;
    field_right(types, inputs, i, u, a)
        && field_right(types, inputs, i, v, b)
        && field_right(types, inputs, i, w, c)
}

// The same of a node that is no constant: its value is an unused field.
fn step_right(
    types: u16,
    inputs: u16,
    i: NodeNumber,
    row: Row,
    a: u16,
    b: u16,
    c: u16,
    value: i32,
) -> bool
    ensures { result ≡ (eq_z value (pos 0) && fields_right types inputs i.0 (row.0 ∷ row.1 ∷ row.2 ∷ []) (a ∷ b ∷ c ∷ [])) }
{
    value == 0 && fields_right(types, inputs, i, row, a, b, c)
}

// A static node. Each arm reads the row of the step that it names, so that the compiler folds the read: docs/SPEED.md, 7.
fn static_right(
    types: u16,
    inputs: u16,
    i: NodeNumber,
    kind: u16,
    a: u16,
    b: u16,
    c: u16,
    value: i32,
) -> bool
    requires { (2 ≤ kind) × (kind < 8) }
    ensures { result ≡ node_fits types inputs (λ j. node kind a b c value) i.0 }
{
    match kind {
        kinds::LIFT => step_right(types, inputs, i, step_row(Step::Lift), a, b, c, value),
        kinds::FUNCTION => step_right(types, inputs, i, step_row(Step::Function), a, b, c, value),
        kinds::APPLICATION => step_right(
            types,
            inputs,
            i,
            step_row(Step::Application),
            a,
            b,
            c,
            value,
        ),
        kinds::FIX => step_right(types, inputs, i, step_row(Step::Fix), a, b, c, value),
        kinds::CONDITIONAL => step_right(
            types,
            inputs,
            i,
            step_row(Step::Conditional),
            a,
            b,
            c,
            value,
        ),
        _ => step_right(types, inputs, i, step_row(Step::Operation), a, b, c, value),
    }
}

// A dynamic node, likewise.
fn dynamic_right(
    types: u16,
    inputs: u16,
    i: NodeNumber,
    kind: u16,
    a: u16,
    b: u16,
    c: u16,
    value: i32,
) -> bool
    requires { (8 ≤ kind) × (kind < 13) }
    ensures { result ≡ node_fits types inputs (λ j. node kind a b c value) i.0 }
{
    match kind {
        kinds::DYNAMIC_FUNCTION => step_right(
            types,
            inputs,
            i,
            step_row(Step::DynamicFunction),
            a,
            b,
            c,
            value,
        ),
        kinds::DYNAMIC_APPLICATION => step_right(
            types,
            inputs,
            i,
            step_row(Step::DynamicApplication),
            a,
            b,
            c,
            value,
        ),
        kinds::DYNAMIC_FIX => step_right(
            types,
            inputs,
            i,
            step_row(Step::DynamicFix),
            a,
            b,
            c,
            value,
        ),
        kinds::DYNAMIC_IF => step_right(
            types,
            inputs,
            i,
            step_row(Step::DynamicIf),
            a,
            b,
            c,
            value,
        ),
        _ => step_right(
            types,
            inputs,
            i,
            step_row(Step::DynamicOperation),
            a,
            b,
            c,
            value,
        ),
    }
}

// A node's kind, then its fields: static 2 to 7, dynamic 8 to 12, the rest refused.
fn node_right(
    types: u16,
    inputs: u16,
    i: NodeNumber,
    kind: u16,
    a: u16,
    b: u16,
    c: u16,
    value: i32,
) -> bool
    ensures { result ≡ node_fits types inputs (λ j. node kind a b c value) i.0 }
{
    match kind {
        kinds::CONSTANT => fields_right(types, inputs, i, step_row(Step::Constant), a, b, c),
        kinds::VARIABLE => step_right(types, inputs, i, step_row(Step::Variable), a, b, c, value),
        kinds::LIFT..=kinds::OPERATION => static_right(types, inputs, i, kind, a, b, c, value),
        kinds::DYNAMIC_FUNCTION..=kinds::DYNAMIC_OPERATION => dynamic_right(
            types, inputs, i, kind, a, b, c, value,
        ),
        _ => false,
    }
}

// Whether record i lists another pair than record j.
fn other_pair(columns: &Columns, j: usize, i: usize) -> bool
    ensures { result ≡ other_pair (row_type (tables_in columns.now)) j i }
{
    type_at(columns.parameters, i) != type_at(columns.parameters, j)
        || type_at(columns.results, i) != type_at(columns.results, j)
}

// The first record before record j that lists the same pair.
fn first_same_pair(columns: &Columns, j: usize) -> Option<usize>
    ensures { found_at result ≡ first_failing (other_pair (row_type (tables_in columns.now)) j) 0 j }
{
    first_failing(j, |i| other_pair(columns, j, i))
}

// "Both parts are below the record's own number. No pair is listed twice"
fn type_right(columns: &Columns, j: usize) -> bool
    ensures { result ≡ type_fits (row_type (tables_in columns.now)) j }
{
    let own = j.saturating_add(2);
    (type_at(columns.parameters, j).0 as usize) < own
        && (type_at(columns.results, j).0 as usize) < own
        && first_same_pair(columns, j).is_none()
}

fn first_bad_type(types: u16, columns: &Columns) -> Option<usize>
    ensures { found_at result ≡ first_failing (type_fits (row_type (tables_in columns.now))) 0 types }
{
    first_failing(types as usize, |j| type_right(columns, j))
}

// "type, 2 bytes, 0 or 1"
fn input_right(columns: &Columns, j: usize) -> bool
    ensures { result ≡ input_fits (row_input (tables_in columns.now)) j }
{
    type_at(columns.inputs, j).0 <= 1
}

fn first_bad_input(inputs: u16, columns: &Columns) -> Option<usize>
    ensures { found_at result ≡ first_failing (input_fits (row_input (tables_in columns.now))) 0 inputs }
{
    first_failing(inputs as usize, |j| input_right(columns, j))
}

// The first bad node. Each node is read from its columns once, and its word is written: a `for`, since a search only reads.
fn first_bad_node(n: Counts, columns: &Columns, words: &mut [u64]) -> Option<usize>
    requires nodes_le_max_nodes { (n.nodes ≤ max_nodes) × (n.nodes ≤ length words.old) }
    requires hold_nodes { HoldNodes n.nodes columns.now }
    ensures found { found_at result ≡ first_failing (node_fits n.types n.inputs (row_node (tables_in columns.now))) 0 n.nodes }
    ensures packed { PackedNodes result n.nodes (row_node (tables_in columns.now)) words.new }
{
    for j in 0..n.nodes {
        let at = j as usize;
        let kind = columns.kinds[at];
        let a = columns.a[at];
        let b = columns.b[at];
        let c = columns.c[at];
        let value = columns.values[at];
        words[at] = pack_node(kind, a, b, c, value);
        if !node_right(
            n.types,
            n.inputs,
            NodeNumber(j),
            kind as u16,
            a,
            b,
            c,
            value,
        ) {
            return Some(at);
        }
    }
    None
}

// Refusal 3, then 4 and 5 at the first record that is bad; where none is, the words of the nodes.
pub(crate) fn content_refusal(
    n: Counts,
    columns: &Columns,
    words: &mut [u64],
) -> Result<(), Refusal>
    requires hold_nodes { HoldNodes n.nodes columns.now }
    requires max_nodes_in_bounds { min n.nodes max_nodes ≤ length words.old }
    ensures reply { refusal_of result ≡ content_in n.types n.inputs n.nodes (tables_in columns.now) }
    ensures packed { PackedTables result n.nodes (tables_in columns.now) words.new }
{
    if !counts_right(n) {
        return Err(Cause::WrongCount.at(0));
    }
    let bad_type = first_bad_type(n.types, columns);
    let bad_input = first_bad_input(n.inputs, columns);
    let bad_node = first_bad_node(n, columns, words);
    record_refusal(n.types, n.inputs, bad_type, bad_input, bad_node)
}
