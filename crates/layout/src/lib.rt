// The text of a script's nodes: words, names, brackets, and the walk that puts them together. Annotations and lifts are dropped.
#![tactic(auto)]

pub mod walk;
mod words;
