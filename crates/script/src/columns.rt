// The eight columns of a script's tables, as a caller lends them.
ghost use Rattle.std.specs.Prelude.{◌≡◌, length};
ghost use Rattle.script.specs.Columns.{enough};

use crate::Counts;

// Two columns of the types, one of the inputs, five of the nodes.
#[derive(Clone, Copy)]
pub struct Columns<'a> {
    pub parameters: &'a [u16],
    pub results: &'a [u16],
    pub inputs: &'a [u16],
    pub kinds: &'a [u8],
    pub a: &'a [u16],
    pub b: &'a [u16],
    pub c: &'a [u16],
    pub values: &'a [i32],
}

impl Columns<'_> {
    // Whether the columns hold as many records as are counted.
    #[tactic(auto, unfolding(crate::specs::Columns::enough))]
    pub fn hold(&self, n: Counts) -> bool
        ensures { result ≡ enough n.types n.inputs n.nodes (length self.now.parameters.now) (length self.now.results.now) (length self.now.inputs.now) (length self.now.kinds.now) (length self.now.a.now) (length self.now.b.now) (length self.now.c.now) (length self.now.values.now) }
    {
        let types = n.types as usize;
        let inputs = n.inputs as usize;
        let nodes = n.nodes as usize;
        (types <= self.parameters.len() && types <= self.results.len())
            && (inputs <= self.inputs.len()
                && ((nodes <= self.kinds.len() && nodes <= self.a.len())
                    && (nodes <= self.b.len()
                        && (nodes <= self.c.len() && nodes <= self.values.len()))))
    }
}
