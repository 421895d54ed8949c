// The script file: its writer, and the laws of its bytes. Refusals 1 to 8 and 21.
#![tactic(auto)]

pub mod writer;
