// The nodes of the rows' script, each by its number. A row before the last has six nodes: the input, the next low, its lift, `<`, the grade, its lift; the
// last row has the last two of them; then stands the if of each row before the last, the last such row first.
ghost use Rattle.std.specs.Prelude.{◌≡◌, ◌*◌, ◌<◌, pos};
ghost use Rattle.lambdamix.specs.Script.{node_at};
ghost use Rattle.lambdamix.specs.Code.{node};
ghost use Rattle.script.specs.KindRows.{kind_number};
ghost use Rattle.bands.specs.BandScript.{band_script, band_nodes};
ghost use Rattle.bands.specs.Calls.{columns_in, rows_in};
ghost use Rattle.bands.specs.Steps.{node_in, part_node, PartAt, PutNode, RowCount, Long, HoldsNodes};

use crate::BandNode;
use crate::rows::{MAX_ROWS, Rows};
use lambdamix::{Operator, Step};
use script::column::{at, put};
use script::{Name, NodeNumber};

// The nodes of the script of the most rows.
const MAX_BAND_NODES: usize = 7 * (MAX_ROWS as usize) - 5;

// Columns of as many nodes.
#[derive(Drop)]
pub(crate) struct BandColumns {
    pub kinds: [u8; MAX_BAND_NODES],
    pub a: [u16; MAX_BAND_NODES],
    pub b: [u16; MAX_BAND_NODES],
    pub c: [u16; MAX_BAND_NODES],
    pub values: [i32; MAX_BAND_NODES],
}

impl BandColumns {
    // Zeros in every place.
    pub(crate) fn new() -> Self
        ensures { Long MAX_BAND_NODES result.kinds result.a result.b result.c result.values }
    {
        BandColumns {
            kinds: [0; MAX_BAND_NODES],
            a: [0; MAX_BAND_NODES],
            b: [0; MAX_BAND_NODES],
            c: [0; MAX_BAND_NODES],
            values: [0; MAX_BAND_NODES],
        }
    }

    // A node into its place.
    fn put(&mut self, i: usize, d: BandNode)
        ensures { PutNode self.old.kinds self.old.a self.old.b self.old.c self.old.values i (node_in d) self.new.kinds self.new.a self.new.b self.new.c self.new.values }
    {
        put(&mut self.kinds, i, d.kind);
        put(&mut self.a, i, d.a);
        put(&mut self.b, i, d.b);
        put(&mut self.c, i, d.c);
        put(&mut self.values, i, d.value);
    }
}

fn constant(value: i32) -> BandNode
    ensures { node_in result ≡ node 0 0 0 0 value }
{
    BandNode {
        kind: Step::Constant as u8,
        a: 0,
        b: 0,
        c: 0,
        value,
    }
}

// A step without a value; then a function for each sort of node that the script of rows has.
fn step(step: Step, a: u16, b: u16, c: u16) -> BandNode
    ensures { node_in result ≡ node (kind_number step) a b c (pos 0) }
{
    BandNode {
        kind: step as u8,
        a,
        b,
        c,
        value: 0,
    }
}

fn variable(x: Name) -> BandNode
    ensures { node_in result ≡ node 1 x.0 0 0 (pos 0) }
{
    step(Step::Variable, x.0, 0, 0)
}

fn lift(child: NodeNumber) -> BandNode
    ensures { node_in result ≡ node 2 child.0 0 0 (pos 0) }
{
    step(Step::Lift, child.0, 0, 0)
}

// Late `<`, and a late if.
fn less(a: NodeNumber, b: NodeNumber) -> BandNode
    ensures { node_in result ≡ node 12 a.0 b.0 5 (pos 0) }
{
    step(Step::DynamicOperation, a.0, b.0, Operator::Less as u16)
}

fn choice(a: NodeNumber, b: NodeNumber, c: NodeNumber) -> BandNode
    ensures { node_in result ≡ node 11 a.0 b.0 c.0 (pos 0) }
{
    step(Step::DynamicIf, a.0, b.0, c.0)
}

// Node i of a row, where the row's next low and its grade are these: parts 0 to 5 in their order.
fn part(p: u16, i: NodeNumber, low: i32, grade: i32) -> BandNode
    requires { PartAt p i.0 }
    ensures { node_in result ≡ part_node p i.0 low grade }
{
    match p {
        0 => variable(Name(0)),
        1 => constant(low),
        3 => less(NodeNumber(i.0 - 3), NodeNumber(i.0 - 1)),
        4 => constant(grade),
        _ => lift(NodeNumber(i.0 - 1)),
    }
}

// The number of the first node of a row.
fn first_of(row: u16) -> NodeNumber
    requires { row < 256 }
    ensures { result.0 ≡ 6 * row }
{
    NodeNumber(6 * row)
}

// Node i of the script.
fn node(count: u16, rows: &Rows, i: NodeNumber) -> BandNode
    requires row_count { RowCount count }
    requires i_bound { i.0 < band_nodes count }
    ensures { node_in result ≡ node_at (band_script (rows_in count (columns_in rows.now))) i.0 }
{
    let last = count - 1;
    let after = first_of(last);
    if i.0 < after.0 {
        let row = (i.0 / 6) as usize;
        return part(i.0 % 6, i, at(rows.low, row + 1, 0), at(rows.grade, row, 0));
    }
    if i.0 < after.0 + 2 {
        return part(i.0 - after.0 + 4, i, 0, at(rows.grade, last as usize, 0));
    }
    let first = first_of(after.0 + last + 1 - i.0);
    choice(
        NodeNumber(first.0 + 3),
        NodeNumber(first.0 + 5),
        NodeNumber(i.0 - 1),
    )
}

// All nodes of the script, from the first on, into columns that are long enough.
pub(crate) fn fill_nodes(count: u16, rows: &Rows, columns: &mut BandColumns)
    requires row_count { RowCount count }
    requires long { Long (band_nodes count) columns.old.kinds columns.old.a columns.old.b columns.old.c columns.old.values }
    ensures held { HoldsNodes count (columns_in rows.now) (band_nodes count) columns.new.kinds columns.new.a columns.new.b columns.new.c columns.new.values }
    ensures long { Long (band_nodes count) columns.new.kinds columns.new.a columns.new.b columns.new.c columns.new.values }
{
    for i in 0..7 * count - 5 {
        columns.put(i as usize, node(count, rows, NodeNumber(i)));
    }
}
