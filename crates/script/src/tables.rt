// The tables of a script in memory of their own, with places for the most records.
ghost use Rattle.std.specs.Prelude.{◌≡◌};
ghost use Rattle.script.specs.Tables.{blank_tables, tables_held, tables_in};

use crate::columns::Columns;
use crate::limits::{MAX_INPUTS, MAX_NODES, MAX_TYPES};

#[derive(Drop)]
pub struct ScriptTables {
    pub parameters: [u16; MAX_TYPES],
    pub results: [u16; MAX_TYPES],
    pub inputs: [u16; MAX_INPUTS],
    pub kinds: [u8; MAX_NODES],
    pub a: [u16; MAX_NODES],
    pub b: [u16; MAX_NODES],
    pub c: [u16; MAX_NODES],
    pub values: [i32; MAX_NODES],
}

impl ScriptTables {
    // Zeros in every place.
    #[tactic(auto, unfolding(crate::specs::Tables::blank_tables, lambdamix::specs::Limits::max_types, lambdamix::specs::Limits::max_inputs, lambdamix::specs::Limits::max_nodes))]
    pub fn new() -> Self
        ensures { tables_held result ≡ blank_tables }
    {
        ScriptTables {
            parameters: [0; MAX_TYPES],
            results: [0; MAX_TYPES],
            inputs: [0; MAX_INPUTS],
            kinds: [0; MAX_NODES],
            a: [0; MAX_NODES],
            b: [0; MAX_NODES],
            c: [0; MAX_NODES],
            values: [0; MAX_NODES],
        }
    }

    // The columns, as a caller lends them.
    pub fn columns(&self) -> Columns<'_>
        ensures { tables_in result ≡ tables_held self.now }
    {
        Columns {
            parameters: &self.parameters,
            results: &self.results,
            inputs: &self.inputs,
            kinds: &self.kinds,
            a: &self.a,
            b: &self.b,
            c: &self.c,
            values: &self.values,
        }
    }
}
