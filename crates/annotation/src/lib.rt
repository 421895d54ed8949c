// The checker of annotations, the paper's marks: refusals 9 to 11.
#![tactic(auto)]

pub mod check;
pub mod typing;
