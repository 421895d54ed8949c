// The listing of a script in lent tables, refused or written.
#![tactic(auto)]

pub mod list;
