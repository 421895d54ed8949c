// The writer of script files. A part is put at a place of the output; past the end nothing is put, of a node nothing at all.
ghost use Rattle.std.specs.Prelude.{◌+◌, ◌≤◌, length, [], ◌∷◌};
ghost use Rattle.script.specs.Columns.{inputs_in, nodes_in, types_in};
ghost use Rattle.script.specs.Bytes.{bytes16, bytes32};
ghost use Rattle.script.specs.File.{type_bytes, input_bytes, node_bytes, records, numbered, file_bytes, type_offset, input_offset, node_offset, file_length};
ghost use Rattle.script.specs.Tables.{tables_script, tables_in};
ghost use Rattle.script.specs.Replies.{Writes};
ghost use Rattle.script.specs.Verdicts.{Fitted};
ghost use Rattle.file.specs.Written.{Put, PutWhole, head_row, node_parts};

use script::cause::Cause;
use script::columns::Columns;
use script::place::{file_size, input_offset, node_offset, type_offset};
use script::widths::tables_fit;
use script::word::bits;
use script::{Counts, Name, NodeNumber, Refusal, TypeNumber, column};
use tables::refusal::tables_refusal;

// Two bytes at a place.
fn pair_at(out: &mut [u8], at: usize, first: u8, second: u8)
    ensures { Put out.old at (first ∷ second ∷ []) out.new }
{
    if at < out.len() {
        column::put(out, at, first);
        column::put(out, at + 1, second);
    }
}

// A number of 16 bits at a place, the low byte first.
#[tactic(auto, unfolding(script::specs::Bytes::bytes16))]
fn word_at(out: &mut [u8], at: usize, v: u16)
    ensures { Put out.old at (bytes16 v) out.new }
{
    let [low, high] = v.to_le_bytes();
    pair_at(out, at, low, high)
}

// A record of each kind at a place.
#[tactic(auto, using(crate::proofs::WritingLaws::put_both, crate::proofs::WritingLaws::put_out), unfolding(crate::specs::Written::head_row, lambdamix::specs::Text::ascii, script::specs::Bytes::bytes16))]
pub fn head_at(out: &mut [u8], at: usize, n: Counts)
    ensures { Put out.old at (head_row n.types n.inputs n.nodes) out.new }
{
    if at < out.len() {
        pair_at(out, at, b'H', b'D');
        word_at(out, at + 2, n.types);
        word_at(out, at + 4, n.inputs);
        word_at(out, at + 6, n.nodes);
    }
}

#[tactic(auto, using(crate::proofs::WritingLaws::put_both, crate::proofs::WritingLaws::put_out), unfolding(script::specs::File::type_bytes, lambdamix::specs::Text::ascii, script::specs::Bytes::bytes16))]
fn type_at(out: &mut [u8], at: usize, parameter: TypeNumber, res: TypeNumber)
    ensures { Put out.old at (type_bytes (record { parameter = parameter.0; result = res.0 })) out.new }
{
    if at < out.len() {
        pair_at(out, at, b'T', b'Y');
        word_at(out, at + 2, parameter.0);
        word_at(out, at + 4, res.0);
    }
}

#[tactic(auto, using(crate::proofs::WritingLaws::put_both, crate::proofs::WritingLaws::put_out), unfolding(script::specs::File::input_bytes, lambdamix::specs::Text::ascii, script::specs::Bytes::bytes16))]
fn input_at(out: &mut [u8], at: usize, input: TypeNumber)
    ensures { Put out.old at (input_bytes input.0) out.new }
{
    if at < out.len() {
        pair_at(out, at, b'I', b'N');
        word_at(out, at + 2, input.0);
    }
}

// Where the output has room: a number of 16 bits and one of 32, then a node's record by its parts. There is one test of the room for all thirteen bytes.
#[tactic(auto, using(crate::proofs::WritingLaws::put_part), unfolding(script::specs::Bytes::bytes16))]
fn word_inside(out: &mut [u8], at: usize, v: u16)
    requires { at + 2 ≤ length out.old }
    ensures { Put out.old at (bytes16 v) out.new }
{
    out[at..at + 2].copy_from_slice(&v.to_le_bytes());
}

#[tactic(auto, using(crate::proofs::WritingLaws::put_part), unfolding(script::specs::Bytes::bytes32))]
fn value_inside(out: &mut [u8], at: usize, w: u32)
    requires { at + 4 ≤ length out.old }
    ensures { Put out.old at (bytes32 w) out.new }
{
    out[at..at + 4].copy_from_slice(&w.to_le_bytes());
}

fn node_inside(out: &mut [u8], at: usize, kind: u8, a: u16, b: u16, c: u16, w: u32)
    requires { at + 13 ≤ length out.old }
    ensures { Put out.old at (node_parts kind a b c w) out.new }
{
    out[at] = b'N';
    out[at + 1] = b'D';
    out[at + 2] = kind;
    word_inside(out, at + 3, a);
    word_inside(out, at + 5, b);
    word_inside(out, at + 7, c);
    value_inside(out, at + 9, w);
}

// The same where the output may end sooner: then nothing is put. A place of 32 bits cannot wrap, so there is one test.
pub fn node_at(out: &mut [u8], at: u32, kind: u8, a: u16, b: u16, c: u16, value: i32)
    ensures { PutWhole out.old at (node_bytes (record { kind = kind; a = a; b = b; c = c; value = value })) out.new }
{
    let first = at as usize;
    if first + 13 <= out.len() {
        node_inside(out, first, kind, a, b, c, bits(value));
    }
}

// All records of a kind, one after the other, where the counts place them.
fn types_at(out: &mut [u8], n: Counts, columns: &Columns)
    ensures { Put out.old (type_offset 0) (records type_bytes (numbered (types_in columns.now.parameters.now columns.now.results.now) 0 n.types)) out.new }
{
    for j in 0..n.types {
        let parameter = column::type_at(columns.parameters, j as usize);
        let res = column::type_at(columns.results, j as usize);
        type_at(out, type_offset(j) as usize, parameter, res);
    }
}

pub fn inputs_at(out: &mut [u8], n: Counts, inputs: &[u16])
    ensures { Put out.old (input_offset n.types 0) (records input_bytes (numbered (inputs_in inputs.now) 0 n.inputs)) out.new }
{
    for j in 0..n.inputs {
        let input = column::type_at(inputs, j as usize);
        input_at(out, input_offset(n.types, Name(j)) as usize, input);
    }
}

// By number and not by `zip`: past a column's end stands 0.
fn nodes_at(out: &mut [u8], n: Counts, columns: &Columns)
    requires { file_length n.types n.inputs n.nodes ≤ length out.old }
    ensures { Put out.old (node_offset n.types n.inputs 0) (records node_bytes (numbered (nodes_in columns.now.kinds.now columns.now.a.now columns.now.b.now columns.now.c.now columns.now.values.now) 0 n.nodes)) out.new }
{
    for j in 0..n.nodes {
        let place = node_offset(n.types, n.inputs, NodeNumber(j));
        let i = j as usize;
        let kind = column::at(columns.kinds, i, 0);
        let a = column::at(columns.a, i, 0);
        let b = column::at(columns.b, i, 0);
        let c = column::at(columns.c, i, 0);
        let value = column::at(columns.values, i, 0);
        node_at(out, place, kind, a, b, c, value);
    }
}

// The whole file.
fn emit(n: Counts, columns: &Columns, out: &mut [u8])
    requires { file_length n.types n.inputs n.nodes ≤ length out.old }
    ensures { Put out.old 0 (file_bytes (tables_script n.types n.inputs n.nodes (tables_in columns.now))) out.new }
{
    head_at(out, 0, n);
    types_at(out, n, columns);
    inputs_at(out, n, columns.inputs);
    nodes_at(out, n, columns);
}

// The file if the output has room for it, else 21.
fn fit(n: Counts, columns: &Columns, out: &mut [u8]) -> Result<usize, Refusal>
    ensures { Fitted (file_bytes (tables_script n.types n.inputs n.nodes (tables_in columns.now))) out.old out.new result }
{
    let size = file_size(n);
    if out.len() < size {
        return Err(Cause::OutputTooShort.at(0));
    }
    emit(n, columns, out);
    Ok(size)
}

// Tables shorter than the counts: 1 [0]; then the refusals of the tables' file; then 21 for a short output. Output that is
// not written stays as it was.
pub fn write(n: Counts, columns: &Columns, out: &mut [u8]) -> Result<usize, Refusal>
    ensures { Writes n (tables_in columns.now) out.old out.new result }
{
    tables_fit(n, columns);
    tables_refusal(n, columns)?;
    fit(n, columns, out)
}
