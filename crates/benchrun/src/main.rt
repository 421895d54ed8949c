// The plain run as a program: it reads all of standard input, a script file and a number for every input, and prints the answer. The first 65,536 bytes
// decide it (`longer_input` of the crate `report`); what follows is read and dropped.
#![tactic(auto)]

use report::answer::respond;
use standard::program::run;

// A write that fails is not told.
fn main(rt: HostRuntime) {
    let _ = run(&mut rt.stdin(), &mut rt.stdout(), respond);
}
