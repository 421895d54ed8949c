// A script file through the reader and, if it is read, through what a closure asks of it.
use reading::reader::read_tables;
use script::columns::Columns;
use script::tables::ScriptTables;
use script::{Counts, Unfinished};

// The tables start as zeros.
pub(crate) fn with_script<T, F: FnOnce(Counts, &Columns) -> Result<T, Unfinished>>(
    file: &[u8],
    then: F,
) -> Result<T, Unfinished>
    requires { F.IsAlwaysCallable then }
{
    let mut tables = ScriptTables::new();
    let n = read_tables(file, &mut tables)?;
    then(n, &tables.columns())
}
