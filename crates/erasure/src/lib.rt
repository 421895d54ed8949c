// Nodes with marks and lifts dropped, so that the machine of the maker runs them plainly.
#![tactic(auto)]

pub mod erase;
