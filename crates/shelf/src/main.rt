// The program `shelf`: the words of the lent module on standard input, on standard output.
// All of it is `report::shelf::run_shelf`; a program has a root file of its own.

#![tactic(auto)]

use report::shelf::{SHELF_IN, run_shelf};

fn main(rt: HostRuntime) {
    run_shelf(
        &mut rt.stdin(),
        &mut rt.stdout(),
        &mut rt.stderr(),
        &mut [0u8; SHELF_IN],
    );
}
