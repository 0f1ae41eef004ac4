// The program `optable`: the op table of the groups on standard input, on standard output.
// What programs share is `filter::run`; a root file each is left.

#![tactic(auto)]

use groups::{FRONT, table_text};

fn main(rt: HostRuntime) {
    filter::run(
        &mut rt.stdin(),
        &mut rt.stdout(),
        &mut rt.stderr(),
        b"optable",
        &mut [0u8; FRONT],
        table_text,
    );
}
