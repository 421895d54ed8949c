// The stage between reading and printing: the plain run on the numbers behind a script.
ghost use Rattle.script.specs.Tables.{tables_in};
ghost use Rattle.report.specs.Stages.{RunsGiven};

use crate::limits::{FUEL, HEAP};
use plainrun::Finished;
use plainrun::run::run;
use script::columns::Columns;
use script::{Counts, Unfinished};
use streams::limits::SETTINGS;
use streams::settings::settings_given;

// The plain run of a script that was read, on the numbers that follow it and in a store that starts as zeros.
pub(crate) fn run_given(n: Counts, columns: &Columns, rest: &[u8]) -> Result<Finished, Unfinished>
    ensures { RunsGiven n (tables_in columns.now) rest.now result }
{
    let mut numbers = [0; SETTINGS];
    let count = settings_given(rest, &mut numbers);
    let mut heap = [0; HEAP];
    run(n, columns, &numbers[..count], FUEL as u32, &mut heap)
}
