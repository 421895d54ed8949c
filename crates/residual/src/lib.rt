// Residual code in the code store, the paper's finished code: the tree that a cell stands for, its fields and its count; and the reply that tells of it.
#![tactic(auto)]

pub mod code;
pub mod limits;
pub mod size;

// What a call that makes finished code replies: its steps and the count of written nodes. Any other replies `Unfinished` of the crate `script`.
#[derive(Clone, Copy)]
pub struct Made {
    pub steps: u16,
    pub nodes: u16,
}
