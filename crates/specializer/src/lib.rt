// The specializer, the paper's maker: it evaluates the static steps of a script and leaves residual code.
#![tactic(auto)]

pub mod make;
