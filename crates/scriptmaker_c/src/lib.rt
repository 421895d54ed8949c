// The library for callers in C: each function of the crate `scriptmaker` under its name as a symbol, with the same clauses. A slice is passed as a pointer and a
// length, and a lent slice overlaps no other.
#![tactic(auto)]

ghost use Rattle.std.specs.Prelude.{◌≡◌};
ghost use Rattle.script.specs.Replies.{ReadsAs, TellsAs, WritesAs, holding};
ghost use Rattle.script.specs.Tables.{tables_of};
ghost use Rattle.annotation.specs.Checks.{check_refusal};
ghost use Rattle.scriptmaker.specs.Calls.{check_reply, counts_of, make_reply, read_reply, run_reply, write_reply};
ghost use Rattle.bands.specs.Calls.{MakesBandsAs, columns_of};
ghost use Rattle.printer.specs.ListCalls.{ListsAs};
ghost use Rattle.lambdamix.specs.declared.Mode.{Mode};
ghost use Rattle.specializer.specs.Entry.{MakesAs};
ghost use Rattle.cells.specs.Room.{stores};
ghost use Rattle.plainrun.specs.Running.{RunsAs};

use scriptmaker::{CheckReply, Counts, MakeReply, ReadReply, RunReply, WriteReply};

// Refusals 1 to 8 as the file of the tables, then 9 to 11.
#[unsafe(no_mangle)]
pub extern "C" fn scriptmaker_check(
    n: Counts,
    parameters: &[u16],
    results: &[u16],
    inputs: &[u16],
    kinds: &[u8],
    a: &[u16],
    b: &[u16],
    c: &[u16],
    values: &[i32],
) -> CheckReply
    ensures { TellsAs (holding check_reply) (check_refusal n.types n.inputs n.nodes (tables_of parameters.now results.now inputs.now kinds.now a.now b.now c.now values.now)) result }
{
    scriptmaker::check::scriptmaker_check(n, parameters, results, inputs, kinds, a, b, c, values)
}

// Columns shorter than the count: 1 [0]; then 30, 31 and 32, each for all rows; then 21 for a short output.
#[unsafe(no_mangle)]
pub extern "C" fn scriptmaker_bands(
    count: u16,
    low: &[i32],
    high: &[i32],
    grade: &[i32],
    out: &mut [u8],
) -> WriteReply
    ensures { MakesBandsAs (holding write_reply) count (columns_of low.now high.now grade.now) out.old out.new result }
{
    scriptmaker::coins::scriptmaker_bands(count, low, high, grade, out)
}

// Tables shorter than the counts: 1 [0]; then 3 to 8, then 21; what is not refused is listed.
#[unsafe(no_mangle)]
pub extern "C" fn scriptmaker_list(
    n: Counts,
    parameters: &[u16],
    results: &[u16],
    inputs: &[u16],
    kinds: &[u8],
    a: &[u16],
    b: &[u16],
    c: &[u16],
    values: &[i32],
    out: &mut [u8],
) -> WriteReply
    ensures { ListsAs (holding write_reply) (counts_of n) (tables_of parameters.now results.now inputs.now kinds.now a.now b.now c.now values.now) out.old out.new result }
{
    scriptmaker::list::scriptmaker_list(n, parameters, results, inputs, kinds, a, b, c, values, out)
}

// The making of a script: refusals 1 to 13 and 20, the run, 26, 21.
#[unsafe(no_mangle)]
pub extern "C" fn scriptmaker_make(
    n: Counts,
    parameters: &[u16],
    results: &[u16],
    inputs: &[u16],
    kinds: &[u8],
    a: &[u16],
    b: &[u16],
    c: &[u16],
    values: &[i32],
    settings: &[i32],
    fuel: u32,
    heap: &mut [u64],
    codes: &mut [u64],
    out: &mut [u8],
) -> MakeReply
    ensures { MakesAs (holding make_reply) Mode.Making (counts_of n) (tables_of parameters.now results.now inputs.now kinds.now a.now b.now c.now values.now)
        settings.now fuel (stores heap.old codes.old) (stores heap.new codes.new) out.old out.new result }
{
    scriptmaker::make::scriptmaker_make(
        n, parameters, results, inputs, kinds, a, b, c, values, settings, fuel, heap, codes, out,
    )
}

// "There is also a bare run, which leaves out refusals 9 to 11 and meets bad marks as stop 27."
#[unsafe(no_mangle)]
pub extern "C" fn scriptmaker_bare_run(
    n: Counts,
    parameters: &[u16],
    results: &[u16],
    inputs: &[u16],
    kinds: &[u8],
    a: &[u16],
    b: &[u16],
    c: &[u16],
    values: &[i32],
    settings: &[i32],
    fuel: u32,
    heap: &mut [u64],
    codes: &mut [u64],
    out: &mut [u8],
) -> MakeReply
    ensures { MakesAs (holding make_reply) Mode.BareRun (counts_of n) (tables_of parameters.now results.now inputs.now kinds.now a.now b.now c.now values.now)
        settings.now fuel (stores heap.old codes.old) (stores heap.new codes.new) out.old out.new result }
{
    scriptmaker::make::scriptmaker_bare_run(
        n, parameters, results, inputs, kinds, a, b, c, values, settings, fuel, heap, codes, out,
    )
}

// Refusals 1 to 8, then 21; what is not refused fills the lent tables.
#[unsafe(no_mangle)]
pub extern "C" fn scriptmaker_read(
    file: &[u8],
    parameters: &mut [u16],
    results: &mut [u16],
    inputs: &mut [u16],
    kinds: &mut [u8],
    a: &mut [u16],
    b: &mut [u16],
    c: &mut [u16],
    values: &mut [i32],
) -> ReadReply
    ensures { ReadsAs (holding read_reply) file.now (tables_of parameters.old results.old inputs.old kinds.old a.old b.old c.old values.old)
        (tables_of parameters.new results.new inputs.new kinds.new a.new b.new c.new values.new) result }
{
    scriptmaker::read::scriptmaker_read(file, parameters, results, inputs, kinds, a, b, c, values)
}

// The plain run of a script on a number for every input: refusals 1 to 8, 12, 13, 20; the run, with stops 22 to 25, 28 and 29.
#[unsafe(no_mangle)]
pub extern "C" fn scriptmaker_run(
    n: Counts,
    parameters: &[u16],
    results: &[u16],
    inputs: &[u16],
    kinds: &[u8],
    a: &[u16],
    b: &[u16],
    c: &[u16],
    values: &[i32],
    numbers: &[i32],
    fuel: u32,
    heap: &mut [u64],
) -> RunReply
    ensures { RunsAs (holding run_reply) (counts_of n) (tables_of parameters.now results.now inputs.now kinds.now a.now b.now c.now values.now)
        numbers.now fuel heap.old heap.new result }
{
    scriptmaker::run::scriptmaker_run(
        n, parameters, results, inputs, kinds, a, b, c, values, numbers, fuel, heap,
    )
}

// Tables shorter than the counts: 1 [0]; then the refusals of the tables' file; then 21 for a short output.
#[unsafe(no_mangle)]
pub extern "C" fn scriptmaker_write(
    n: Counts,
    parameters: &[u16],
    results: &[u16],
    inputs: &[u16],
    kinds: &[u8],
    a: &[u16],
    b: &[u16],
    c: &[u16],
    values: &[i32],
    out: &mut [u8],
) -> WriteReply
    ensures { WritesAs (holding write_reply) (counts_of n) (tables_of parameters.now results.now inputs.now kinds.now a.now b.now c.now values.now) out.old out.new result }
{
    scriptmaker::write::scriptmaker_write(
        n, parameters, results, inputs, kinds, a, b, c, values, out,
    )
}
