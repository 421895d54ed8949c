// Reading, writing, checking, making, the bare run, the plain run, the listing and bands for callers in C and Rust: functions with C's names and structs
// over the proved entries. A slice is passed as a pointer and a length, so the columns of tables stay apart here and each entry makes its `Columns`, and a lent slice overlaps no other.
#![tactic(auto)]

pub mod check;
pub mod coins;
pub mod list;
pub mod make;
pub mod read;
pub mod run;
pub mod write;

ghost use Rattle.std.specs.Prelude.{◌≡◌};
ghost use Rattle.scriptmaker.specs.Calls.{counts_of};

// How many types, inputs and nodes a script has.
#[repr(C)]
#[derive(Clone, Copy)]
pub struct Counts {
    pub types: u16,
    pub inputs: u16,
    pub nodes: u16,
}

// Number and place of the paper; 0 and 0 after a success. So it is in each reply below.
#[repr(C)]
#[derive(Clone, Copy)]
pub struct CheckReply {
    pub number: u8,
    pub place: usize,
}

// The counts of the file that was read.
#[repr(C)]
#[derive(Clone, Copy)]
pub struct ReadReply {
    pub number: u8,
    pub place: usize,
    pub counts: Counts,
}

// The length of the file or the listing that was written.
#[repr(C)]
#[derive(Clone, Copy)]
pub struct WriteReply {
    pub number: u8,
    pub place: usize,
    pub length: usize,
}

// The steps of the run, and how many nodes the written code has.
#[repr(C)]
#[derive(Clone, Copy)]
pub struct MakeReply {
    pub number: u8,
    pub place: usize,
    pub steps: u16,
    pub nodes: u16,
}

// The steps of the plain run, 1 if it gave a function, and the number that it gave.
#[repr(C)]
#[derive(Clone, Copy)]
pub struct RunReply {
    pub number: u8,
    pub place: usize,
    pub steps: u16,
    pub function: u8,
    pub value: i32,
}

// The counts as the entries take them.
impl From<Counts> for script::Counts {
    ghost from_gives = { λ n r. r ≡ counts_of n };

    fn from(n: Counts) -> script::Counts {
        script::Counts {
            types: n.types,
            inputs: n.inputs,
            nodes: n.nodes,
        }
    }
}
