// The check of counts and tables: the contents of records, then the structure. Refusals 1 and 3 to 8.
#![tactic(auto)]

mod content;
mod records;
pub mod refusal;
