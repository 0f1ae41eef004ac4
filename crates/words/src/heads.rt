// Where the chunks of a module stand.
ghost use Rattle.std.specs.Prelude.{◌≡◌, ℕ, ◌<◌, length};
ghost use Rattle.rules.specs.Outcome.{ok};
ghost use Rattle.rules.specs.Reading.{read};
ghost use Rattle.words.specs.Parts.{chunks_in, head_at};
ghost use Rattle.words.specs.Places.{PlacedAt};

use crate::limits::CHUNKS;
use crate::parts::parts_at;
use arrayvec::ArrayVec;

// The head of one chunk of words that are a module: one pass over the chunks before it.
pub fn head_of(words: &[u32], c: usize) -> usize
    requires { (read words.now ≡ ok (chunks_in words.now)) × (c < length (chunks_in words.now)) }
    ensures { result ≡ head_at (chunks_in words.now) c }
{
    let mut at = 1;
    for _ in 0..c {
        at = parts_at(words, at).end;
    }
    at
}

// Where a chunk stands: its head, ops and extras, and its end. A module has at most 16,384 words.
#[derive(Clone, Copy, Debug, Default, PartialEq, Eq)]
pub struct ChunkPlace {
    pub head: u16,
    pub ops: u16,
    pub extras: u16,
    pub end: u16,
}

// The places of all chunks of words that are a module of n chunks, by index: each chunk's parts are found once, in one pass in all.
pub fn chunk_places(words: &[u32], n: usize) -> ArrayVec<ChunkPlace, CHUNKS>
    requires { (read words.now ≡ ok (chunks_in words.now)) × (n ≡ length (chunks_in words.now)) }
    ensures count { length result.items ≡ n }
    ensures placed { (k : ℕ) → k < n → PlacedAt words.now result.items k }
{
    let mut places = ArrayVec::new();
    let mut at = 1;
    for _ in 0..n {
        let p = parts_at(words, at);
        places.push(ChunkPlace {
            head: at as u16,
            ops: p.ops as u16,
            extras: p.extras as u16,
            end: p.end as u16,
        });
        at = p.end;
    }
    places
}
