// The run of a script on lent stores, from its start to the reply, the output and cleared stores.
#![tactic(auto)]

pub mod run;
