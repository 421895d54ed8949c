// The plain run of a script: marks and lifts dropped, on a number for every input. It knows neither the checker nor residual code.
#![tactic(auto)]

pub mod run;

// What a plain run gives: no `Option`, since a function is a value and not the lack of one.
#[derive(Clone, Copy)]
pub enum Value {
    Number(i32),
    Function,
}

// The reply of a plain run that finishes: what it gives, and its steps. Any other replies `Unfinished` of the crate `script`.
#[derive(Clone, Copy)]
pub struct Finished {
    pub value: Value,
    pub steps: u16,
}
