// The script maker as a program: it reads all of standard input and prints the answer. The first 65,536 bytes decide it
// (`longer_input` of the crate `respond`); what follows is read and dropped.
#![tactic(auto)]

use respond::answer::respond;
use standard::program::run;

// A write that fails is not told.
fn main(rt: HostRuntime) {
    let _ = run(&mut rt.stdin(), &mut rt.stdout(), respond);
}
