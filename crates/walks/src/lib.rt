// The walks over nodes in words: how often each node is used, heights, and scope. Refusals 6 to 8.
#![tactic(auto)]

pub mod structure;
