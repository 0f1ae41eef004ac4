// The operand-stack walk of one chunk: an entry point for any words, chunk number and lent callee list.
ghost use Rattle.std.specs.Prelude.{◌≡◌};
ghost use Rattle.rules.specs.Stack.{chunk_stack};
ghost use Rattle.rules.specs.Sheet.{stack_outcome};
ghost use Rattle.words.specs.Chunks.{chunk_of};
ghost use Rattle.words.specs.Refusals.{result_of, outcome_of};
ghost use Rattle.stack.specs.Answers.{stack_is};

use crate::chunk::{Stack, compute_chunk_wcmu};
use rows::check::chunk_row;
use words::chunk::Chunk;
use words::lookup::chunk_at;
use words::refusals::{Fault, Refused};

// The stack walk of a chunk over the stack bytes of the callees: 3, 4, 5, 6, 15, then 7 and 9 as the walk meets them, then 11.
fn chunk_stack(chunk: &Chunk<'_>, callees: &[u32]) -> Result<Stack, Fault>
    ensures { result_of stack_is result ≡ chunk_stack (chunk_of chunk.now) callees.now }
{
    let row = chunk_row(chunk)?;
    compute_chunk_wcmu(chunk, callees, row)
}

// The stack walk of chunk c, over the stack bytes of the callees by chunk index: its stack, or refusal 1, 2, 12, 3 to 7, 9, 11 or 15.
pub fn stack_walk(words: &[u32], c: usize, callees: &[u32]) -> Result<Stack, Refused>
    ensures { outcome_of stack_is result ≡ stack_outcome words.now c callees.now }
{
    let chunk = chunk_at(words, c)?;
    chunk_stack(&chunk, callees).map_err(|fault| fault.in_chunk(c))
}
