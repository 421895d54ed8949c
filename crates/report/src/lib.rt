// What the program `benchrun` answers to its input.
#![tactic(auto)]

pub mod answer;
pub mod limits;
mod lines;
mod stage;
