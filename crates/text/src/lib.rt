// Texts that are written into what remains of a lent output: letters, words and numbers.
#![tactic(auto)]

pub mod decimals;
pub mod parts;

// What the writing of a number tells: how many bytes its text has, and how many rounds all loops took for it.
#[derive(Clone, Copy)]
pub struct Decimal {
    pub length: usize,
    pub rounds: usize,
}
