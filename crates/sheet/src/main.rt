// The program `sheet`: the sheet of the module on standard input, on standard output.
// All of it is `report::run_sheet`; a program has a root file of its own.

#![tactic(auto)]

use report::{IN, run_sheet};

fn main(rt: HostRuntime) {
    run_sheet(
        &mut rt.stdin(),
        &mut rt.stdout(),
        &mut rt.stderr(),
        &mut [0u8; IN],
    );
}
