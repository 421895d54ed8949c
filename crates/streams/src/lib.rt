// The programs' standard input and output: where the script ends, the settings behind it, the lines that are printed, and the room for an answer.
#![tactic(auto)]

pub mod limits;
pub mod print;
pub mod room;
pub mod settings;
pub mod split;
