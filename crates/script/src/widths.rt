// What is lent has the widths of its columns. The kit tells so of a signed element only once it was read.
ghost use Rattle.script.specs.Tables.{tables_in};
ghost use Rattle.script.specs.Widths.{AllBelow, AllFit, LentTables};

use crate::Counts;
use crate::columns::Columns;

// Each number of a column is read once.
pub fn numbers_fit(s: &[i32])
    ensures { AllFit s.now }
{
    for z in s {
        let _z = *z;
    }
}

// Elements of 8 bits and of 16 have their widths as they are lent.
fn bytes_fit(s: &[u8])
    ensures { AllBelow 256 s.now }
{}

fn halves_fit(s: &[u16])
    ensures { AllBelow 65536 s.now }
{}

// Counts and tables as they are lent.
pub fn tables_fit(n: Counts, columns: &Columns)
    ensures { LentTables n.types n.inputs n.nodes (tables_in columns.now) }
{
    halves_fit(columns.parameters);
    halves_fit(columns.results);
    halves_fit(columns.inputs);
    bytes_fit(columns.kinds);
    halves_fit(columns.a);
    halves_fit(columns.b);
    halves_fit(columns.c);
    numbers_fit(columns.values);
}
