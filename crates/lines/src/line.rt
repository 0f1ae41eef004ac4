// One line of the sheet: the tests and walks of one chunk.
ghost use Rattle.std.specs.Prelude.{◌≡◌};
ghost use Rattle.rules.specs.Sheet.{chunk_line};
ghost use Rattle.words.specs.Chunks.{chunk_of};
ghost use Rattle.words.specs.Refusals.{result_of};
ghost use Rattle.lines.specs.Line.{line_is};

use crate::costs::chunk_costs;
use rows::check::chunk_row;
use stack::chunk::compute_chunk_wcmu;
use words::chunk::Chunk;
use words::refusals::Fault;
use words::units::{Slots, StackBytes};

// A chunk's line: cycles, whether they are cut, peak in slots, stack bytes, and the cycles with its callees.
#[derive(Clone, Copy, Debug, PartialEq, Eq)]
pub struct Line {
    pub cycles: u32,
    pub cut: bool,
    pub peak: Slots,
    pub bytes: StackBytes,
    pub whole: u32,
}

// The line of a chunk, over the stack bytes and the whole figures of its callees, or a refusal: 3, 4, 5, 6, 15, the cycle walks, the stack walk, 11.
pub fn chunk_line(chunk: &Chunk<'_>, callees: &[u32], wholes: &[u32]) -> Result<Line, Fault>
    ensures { result_of line_is result ≡ chunk_line (chunk_of chunk.now) callees.now wholes.now }
{
    let row = chunk_row(chunk)?;
    let both = chunk_costs(chunk, wholes, row)?;
    let stack = compute_chunk_wcmu(chunk, callees, row)?;
    Ok(Line {
        cycles: both.cycles,
        cut: both.cut,
        peak: stack.peak,
        bytes: stack.bytes,
        whole: both.whole,
    })
}
