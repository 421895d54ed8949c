// What the program answers to its input.
#![tactic(auto)]

pub mod answer;
pub mod limits;
mod stage;
