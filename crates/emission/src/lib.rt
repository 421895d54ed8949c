// Residual code, the paper's finished code, written as a file: how a run that gave code ends.
#![tactic(auto)]

pub mod emit;
