// The reader of a script file. Refusals 1 to 8 and the reader's 21.
#![tactic(auto)]

pub mod bytes;
pub mod fill;
pub mod marks;
pub mod reader;
