// The entry: rows to the file of their script.
ghost use Rattle.script.specs.Verdicts.{Fitted};
ghost use Rattle.bands.specs.Calls.{columns_in, band_bytes, MakesBands};
ghost use Rattle.bands.specs.Steps.{Writable};

use crate::nodes::{BandColumns, fill_nodes};
use crate::rows::{Rows, columns_refusal};
use file::writer::write;
use script::columns::Columns;
use script::widths::numbers_fit;
use script::{Counts, Refusal};

// The file of the rows' script, if the output has room for it, else 21.
fn write_script(count: u16, rows: &Rows, out: &mut [u8]) -> Result<usize, Refusal>
    requires { Writable count (columns_in rows.now) }
    ensures { Fitted (band_bytes count (columns_in rows.now)) out.old out.new result }
{
    let mut nodes = BandColumns::new();
    fill_nodes(count, rows, &mut nodes);
    let n = Counts {
        types: 0,
        inputs: 1,
        nodes: 7 * count - 5,
    };
    let late = [1u16; 1];
    let columns = Columns {
        parameters: &late,
        results: &late,
        inputs: &late,
        kinds: &nodes.kinds,
        a: &nodes.a,
        b: &nodes.b,
        c: &nodes.c,
        values: &nodes.values,
    };
    write(n, &columns, out)
}

// Columns shorter than the count: 1 [0]; then 30, 31 and 32, each for all rows; then 21. Output that is not written stays as it was.
pub fn bands(count: u16, rows: &Rows, out: &mut [u8]) -> Result<usize, Refusal>
    ensures { MakesBands count (columns_in rows.now) out.old out.new result }
{
    numbers_fit(rows.low);
    numbers_fit(rows.high);
    numbers_fit(rows.grade);
    columns_refusal(count, rows)?;
    write_script(count, rows, out)
}
