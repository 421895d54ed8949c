// Standard input and standard output, as the programs use them, and a program on what it answers.
#![tactic(auto)]

pub mod input;
pub mod output;
pub mod program;
