// The operand-stack walk of a chunk: the height of its row, and the bytes of the stack.
ghost use Rattle.std.specs.Prelude.{◌≡◌, ◌<◌};
ghost use Rattle.rules.specs.Stack.{stack_of};
ghost use Rattle.words.specs.Chunks.{chunk_of};
ghost use Rattle.words.specs.Refusals.{result_of};
ghost use Rattle.rows.specs.Opens.{RowFits};
ghost use Rattle.stack.specs.Levels.{height_of, SmallHeight};
ghost use Rattle.stack.specs.Answers.{stack_is, parts_stack};

use crate::height::Height;
use crate::region::StackWalk;
use rows::range::Range;
use words::chunk::Chunk;
use words::limits::{LEVELS, SLOTS};
use words::refusals::{Fault, Refusal};
use words::units::{Slots, StackBytes, bytes_of};

// Peak in slots, the delta, if a way leads to the row's end, and stack bytes.
#[derive(Clone, Copy, Debug, PartialEq, Eq)]
pub struct Stack {
    pub peak: Slots,
    pub delta: Option<i64>,
    pub bytes: StackBytes,
}

// The stack of so many locals and a height above them, or refusal 11, too tall.
fn stack_of(locals: u16, height: Height) -> Result<Stack, Fault>
    requires { SmallHeight (height_of height) 1073741824 }
    ensures { result_of stack_is result ≡ stack_of locals (height_of height) }
{
    let slots = locals as u32 + height.peak.0;
    if SLOTS < slots {
        return Err(Refusal::TooTall.at(0));
    }
    Ok(Stack {
        peak: height.peak,
        delta: height.delta,
        bytes: bytes_of(Slots(slots)),
    })
}

// The stack walk of a row of a chunk: its stack, or refusal 7, 9 or 11.
pub fn compute_chunk_wcmu(chunk: &Chunk<'_>, callees: &[u32], row: Range) -> Result<Stack, Fault>
    requires { RowFits chunk.now.ops.now row.from row.to }
    ensures { result_of stack_is result ≡ parts_stack (chunk_of chunk.now) callees.now row.from row.to }
{
    let walk = StackWalk {
        chunk: *chunk,
        callees,
    };
    let height = walk.wcmu_region_at(row.from, row.to, LEVELS, false)?;
    stack_of(chunk.locals, height)
}
