// The text that `optable` prints for each case on standard input, one behind the other. A case ends before a bar.

#![tactic(auto)]

use filter::{read_input, write_output};
use groups::line::cut_at;
use groups::table_text;

// The most bytes of all cases.
const IN: usize = 4096;

// The byte behind a case.
const BAR: u8 = b'|';

fn main(rt: HostRuntime) {
    let mut buffer = [0u8; IN];
    let name = b"optable_cases";
    let Some(bytes) = read_input(&mut rt.stdin(), &mut rt.stderr(), name, &mut buffer) else {
        return;
    };
    let mut rest = bytes;
    while !rest.is_empty() {
        let (case, behind) = cut_at(rest, BAR);
        write_output(&mut rt.stdout(), &mut rt.stderr(), name, &table_text(case));
        rest = behind;
    }
}
