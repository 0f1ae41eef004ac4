// A chunk by its index, with the refusals that come before it.
ghost use Rattle.std.specs.Prelude.{◌≡◌};
ghost use Rattle.rules.specs.Sheet.{chunk_outcome};
ghost use Rattle.words.specs.Chunks.{chunk_of};
ghost use Rattle.words.specs.Refusals.{outcome_of};
ghost use Rattle.words.specs.Lookup.{parts_outcome};

use crate::chunk::{Chunk, chunk_with};
use crate::heads::head_of;
use crate::parts::{Parts, parts_at};
use crate::reader::read_module;
use crate::refusals::{Refusal, Refused};

// Where the parts of the chunk of an index stand, or refusal 1, 2 or 12: the words are read, and the chunks before it passed over.
pub fn find_chunk(words: &[u32], c: usize) -> Result<Parts, Refused>
    ensures { outcome_of (λ p. p) result ≡ parts_outcome words.now c }
{
    let n = read_module(words)?;
    if n as usize <= c {
        return Err(Refusal::NoSuchChunk.at(0).in_chunk(c));
    }
    Ok(parts_at(words, head_of(words, c)))
}

// The chunk of an index, or refusal 1, 2 or 12.
pub fn chunk_at(words: &[u32], c: usize) -> Result<Chunk<'_>, Refused>
    ensures { outcome_of chunk_of result ≡ chunk_outcome words.now c }
{
    let parts = find_chunk(words, c)?;
    Ok(chunk_with(words, parts))
}
