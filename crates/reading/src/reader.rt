// The reader: refusals 1 to 8 of a file, then its records into lent tables.
ghost use Rattle.std.specs.Prelude.{◌≡◌, ◌+◌, true};
ghost use Rattle.lambdamix.specs.Refusal.{refused_unless};
ghost use Rattle.script.specs.Replies.{head_counts, Tells, Reads};
ghost use Rattle.script.specs.Verdicts.{refusal_of};
ghost use Rattle.script.specs.File.{head_types, head_inputs, head_nodes, type_offset, input_offset, node_offset};
ghost use Rattle.script.specs.Causes.{cause_number};
ghost use Rattle.script.specs.Refusals.{head_refusal, counts_right, body_refusal, file_refusal};
ghost use Rattle.script.specs.Tables.{filled, long_enough, tables_held, tables_in, tables_of};
ghost use Rattle.reading.specs.Heads.{marks_first, script_by, FillFits, read_reply};

use crate::bytes::{number16, value32};
use crate::fill::fill;
use crate::marks::{mark_refusal, marked};
use script::cause::Cause;
use script::column::at;
use script::columns::Columns;
use script::limits::counts_right;
use script::place::{file_size, input_offset, node_offset, type_offset};
use script::tables::ScriptTables;
use script::{Counts, Name, NodeNumber, Refusal};
use tables::refusal::tables_refusal;

// The counts in a file's head.
#[tactic(auto, unfolding(script::specs::Replies::head_counts, script::specs::File::head_types, script::specs::File::head_inputs, script::specs::File::head_nodes))]
pub fn head_counts(file: &[u8]) -> Counts
    ensures { result ≡ head_counts file.now }
{
    Counts {
        types: number16(file, 2),
        inputs: number16(file, 4),
        nodes: number16(file, 6),
    }
}

// "1 (below 8), 2 and 3 for the head, 1 for the total"
fn head_refusal(file: &[u8]) -> Result<(), Refusal>
    ensures { refusal_of result ≡ head_refusal file.now }
{
    let length = file.len();
    Cause::WrongLength.unless(8 <= length, length)?;
    Cause::WrongMark.unless(marked(file, 0, b'H', b'D'), 0)?;
    let n = head_counts(file);
    Cause::WrongCount.unless(counts_right(n), 0)?;
    Cause::WrongLength.unless(length == file_size(n), length)
}

// Where a field of a record stands.
fn type_field(j: u16, field: u8) -> usize
    ensures { result ≡ type_offset j + field }
{
    type_offset(j) as usize + field as usize
}

fn input_field(n: Counts, k: u16, field: u8) -> usize
    ensures { result ≡ input_offset n.types k + field }
{
    input_offset(n.types, Name(k)) as usize + field as usize
}

fn node_field(n: Counts, i: u16, field: u8) -> usize
    ensures { result ≡ node_offset n.types n.inputs i + field }
{
    node_offset(n.types, n.inputs, NodeNumber(i)) as usize + field as usize
}

// A file's records, as many as are counted, into columns that are long enough for them. The columns are lent one by one, as the C interface lends them.
fn fill_tables(
    file: &[u8],
    n: Counts,
    parameters: &mut [u16],
    results: &mut [u16],
    inputs: &mut [u16],
    kinds: &mut [u8],
    a: &mut [u16],
    b: &mut [u16],
    c: &mut [u16],
    values: &mut [i32],
)
    requires { FillFits n (tables_of parameters.old results.old inputs.old kinds.old a.old b.old c.old values.old) }
    ensures { tables_of parameters.new results.new inputs.new kinds.new a.new b.new c.new values.new ≡ filled (script_by n file.now) (tables_of parameters.old results.old inputs.old kinds.old a.old b.old c.old values.old) }
{
    fill(parameters, n.types, |j| number16(file, type_field(j, 2)));
    fill(results, n.types, |j| number16(file, type_field(j, 4)));
    fill(inputs, n.inputs, |k| number16(file, input_field(n, k, 2)));
    fill(kinds, n.nodes, |i| at(file, node_field(n, i, 2), 0));
    fill(a, n.nodes, |i| number16(file, node_field(n, i, 3)));
    fill(b, n.nodes, |i| number16(file, node_field(n, i, 5)));
    fill(c, n.nodes, |i| number16(file, node_field(n, i, 7)));
    fill(values, n.nodes, |i| value32(file, node_field(n, i, 9)));
}

// Of a wrong mark and what the tables are refused by: a bad record (3 to 5) at a lower offset, else the mark. No `?`: the choice
// looks at both.
#[tactic(auto, unfolding(crate::specs::Heads::marks_first, script::specs::Refusals::earlier_by, script::specs::Verdicts::refusal_of))]
fn marks_first(marks: Result<(), Refusal>, told: Result<(), Refusal>) -> Result<(), Refusal>
    ensures { refusal_of result ≡ marks_first (refusal_of marks) (refusal_of told) }
{
    match (marks, told) {
        (Ok(()), _) => told,
        (Err(x), Err(y)) if y.number < 6 && y.place < x.place => told,
        (Err(_), _) => marks,
    }
}

// Refusals 2 to 8 of a file whose head is right, on columns of its own.
fn body_refusal(file: &[u8]) -> Result<(), Refusal>
    requires { counts_right (head_types file.now) (head_inputs file.now) (head_nodes file.now) ≡ true }
    ensures { refusal_of result ≡ body_refusal file.now }
{
    let n = head_counts(file);
    let mut own = ScriptTables::new();
    fill_tables(
        file,
        n,
        &mut own.parameters,
        &mut own.results,
        &mut own.inputs,
        &mut own.kinds,
        &mut own.a,
        &mut own.b,
        &mut own.c,
        &mut own.values,
    );
    marks_first(mark_refusal(file, n), tables_refusal(n, &own.columns()))
}

// Refusals 1 to 8 of a file.
pub fn check_file(file: &[u8]) -> Result<(), Refusal>
    ensures { Tells (file_refusal file.now) result }
{
    head_refusal(file)?;
    body_refusal(file)
}

// The reply, by the lent columns: the file's refusal, then 21 where they are too short.
fn reply(file: &[u8], columns: &Columns) -> Result<Counts, Refusal>
    ensures { result ≡ read_reply file.now (long_enough (head_types file.now) (head_inputs file.now) (head_nodes file.now) (tables_in columns.now)) }
{
    check_file(file)?;
    let n = head_counts(file);
    Cause::OutputTooShort.unless(columns.hold(n), 0)?;
    Ok(n)
}

// Refusals 1 to 8, then 21; what is not refused fills the lent tables, which are lent one by one: the C interface.
#[tactic(auto, using(crate::proofs::ReaderLaws::reply_told, crate::proofs::ReaderLaws::refused_leaves, crate::proofs::ReaderLaws::read_fills, crate::proofs::ReaderLaws::read_fits, std::proofs::lemmas::List::set_past))]
pub fn read(
    file: &[u8],
    parameters: &mut [u16],
    results: &mut [u16],
    inputs: &mut [u16],
    kinds: &mut [u8],
    a: &mut [u16],
    b: &mut [u16],
    c: &mut [u16],
    values: &mut [i32],
) -> Result<Counts, Refusal>
    ensures { Reads file.now (tables_of parameters.old results.old inputs.old kinds.old a.old b.old c.old values.old) (tables_of parameters.new results.new inputs.new kinds.new a.new b.new c.new values.new) result }
{
    let lent = Columns {
        parameters,
        results,
        inputs,
        kinds,
        a,
        b,
        c,
        values,
    };
    let n = reply(file, &lent)?;
    fill_tables(file, n, parameters, results, inputs, kinds, a, b, c, values);
    Ok(n)
}

// The same, into tables in memory of their own.
pub fn read_tables(file: &[u8], tables: &mut ScriptTables) -> Result<Counts, Refusal>
    ensures { Reads file.now (tables_held tables.old) (tables_held tables.new) result }
{
    read(
        file,
        &mut tables.parameters,
        &mut tables.results,
        &mut tables.inputs,
        &mut tables.kinds,
        &mut tables.a,
        &mut tables.b,
        &mut tables.c,
        &mut tables.values,
    )
}
