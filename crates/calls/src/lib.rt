// What refuses a call of tables past 1 to 8 before its run: 9 to 11 by the mode, 12, 13, 20.
#![tactic(auto)]

pub mod before;
