// The count alone: an entry point for any words, chunk number and position.
ghost use Rattle.std.specs.Prelude.{◌≡◌};
ghost use Rattle.rules.specs.Sheet.{count_outcome};
ghost use Rattle.words.specs.Refusals.{outcome_of};

use crate::bound::extract_loop_iteration_bound;
use words::lookup::chunk_at;
use words::refusals::{Refusal, Refused};

// The count of the loop at position p of chunk c, or refusal 1, 2, 12 or 9.
pub fn loop_count(words: &[u32], c: usize, p: usize) -> Result<u32, Refused>
    ensures { outcome_of (λ n. n) result ≡ count_outcome words.now c p }
{
    let chunk = chunk_at(words, c)?;
    let bound = extract_loop_iteration_bound(&chunk, p);
    bound.ok_or(Refusal::NoCount.at(p).in_chunk(c))
}
