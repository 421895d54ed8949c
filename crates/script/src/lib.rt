// The script: its limits, the columns of its tables, lent or in memory of their own, the places of its records, the table of kinds, nodes in words, why a call
// is refused, and the search for the first record that fails.
#![tactic(auto)]

pub mod cause;
pub mod column;
pub mod columns;
pub mod kinds;
pub mod limits;
pub mod place;
pub mod search;
pub mod tables;
pub mod widths;
pub mod word;

ghost use Rattle.std.specs.Prelude.{◌≡◌};
ghost use Rattle.script.specs.Answers.{unfinished_at_once};

pub use lambdamix::Step;
use lambdamix::Use;

// A node's number, a name and a type's number have 16 bits each, and a place that wants one never takes another.
#[derive(Clone, Copy, PartialEq, Eq)]
pub struct NodeNumber(pub u16);

#[derive(Clone, Copy, PartialEq, Eq)]
pub struct Name(pub u16);

#[derive(Clone, Copy, PartialEq, Eq)]
pub struct TypeNumber(pub u16);

// A row of the table of kinds: the uses of the fields a, b and c.
#[derive(Clone, Copy)]
pub struct Row(pub Use, pub Use, pub Use);

// How many types, inputs and nodes a script has.
#[derive(Clone, Copy)]
pub struct Counts {
    pub types: u16,
    pub inputs: u16,
    pub nodes: u16,
}

// The paper's number and place of a reply without code: what a check, the reader and the writer refuse by.
#[derive(Clone, Copy, PartialEq, Eq)]
pub struct Refusal {
    pub number: u8,
    pub place: usize,
}

// The reply of a run that gives no result: what refuses or stops it, and its steps.
#[derive(Clone, Copy, PartialEq, Eq)]
pub struct Unfinished {
    pub refusal: Refusal,
    pub steps: u16,
}

// What is refused before the run takes no step.
impl From<Refusal> for Unfinished {
    ghost from_gives = { λ f r. r ≡ unfinished_at_once f };

    fn from(refusal: Refusal) -> Unfinished {
        Unfinished { refusal, steps: 0 }
    }
}
