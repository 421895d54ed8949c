// Bands for coin sensors: rows of low, high and grade become a script that grades every reading by its row. It knows the script maker by its
// contracts: the script is written by the writer's entry.
#![tactic(auto)]

pub mod maker;
mod nodes;
pub mod rows;

// A node of the script, as the columns of a script hold it.
#[derive(Clone, Copy)]
pub struct BandNode {
    pub kind: u8,
    pub a: u16,
    pub b: u16,
    pub c: u16,
    pub value: i32,
}
