// The depth-first search over the calls of a module, with its marks in arrays by value.
ghost use Rattle.std.specs.Prelude.{◌≡◌, ◌≤◌, List, [], ℕ, length};
ghost use Rattle.rules.specs.Order.{visit};
ghost use Rattle.words.specs.Parts.{chunks_in};
ghost use Rattle.order.specs.Search.{Searchable, Shows, Shown, left_in};

use arrayvec::ArrayVec;
use words::fields;
use words::fields::is;
use words::heads::ChunkPlace;
use words::kinds::Kind;
use words::limits::CHUNKS;
use words::refusals::{Refusal, Refused};

// The words of a module, and where its chunks stand, by index.
#[derive(Clone, Copy)]
pub struct Calls<'a> {
    pub words: &'a [u32],
    pub places: &'a [ChunkPlace],
}

// The chunks that are listed, those whose visits are open, and the list so far. Document 01 names this form: 256 marks by value, passed through the search.
// The visits are lent the record: one that is handed in and out stands on the machine's stack three times a visit.
#[derive(Drop)]
pub struct Search {
    pub seen: [bool; CHUNKS],
    pub active: [bool; CHUNKS],
    pub order: ArrayVec<u8, CHUNKS>,
}

// Calls in a circle, and the chunk that is met again.
#[derive(Clone, Copy, Debug, PartialEq, Eq)]
pub struct Ring {
    pub chunk: usize,
}

impl From<Ring> for Refused {
    ghost use Rattle.order.specs.Search.{ring_refused};

    ghost from_gives = { λ ring refused. refused ≡ ring_refused ring };

    fn from(ring: Ring) -> Refused {
        Refusal::Ring.at(0).in_chunk(ring.chunk)
    }
}

// Before any chunk is visited.
pub fn begun() -> Search
    ensures { (n : ℕ) → n ≤ 256 → Shows result n [] [] }
{
    Search {
        seen: [false; CHUNKS],
        active: [false; CHUNKS],
        order: ArrayVec::new(),
    }
}

// The visit of a chunk: its callees by position, then the chunk itself. `left` falls with each visit inside. A callee that is listed already is passed over,
// but not where its visit would have no number left: that is a ring.
pub fn topo_visit(calls: &Calls<'_>, c: usize, s: &mut Search, left: usize) -> Result<(), Ring>
    requires { Searchable calls.now c s.old }
    ensures { (opened done : List ℕ) → Shows s.old (length calls.now.places.now) opened done → Shown (left_in s.new result) (length calls.now.places.now) opened (visit (chunks_in calls.now.words.now) left opened c done) }
{
    if left == 0 || s.active[c] {
        return Err(Ring { chunk: c });
    }
    if s.seen[c] {
        return Ok(());
    }
    s.active[c] = true;
    let place = calls.places[c];
    for &w in &calls.words[place.ops as usize..place.extras as usize] {
        let callee = (w % fields::B_UNIT) as usize;
        let is_call = is(w, Kind::Call);
        if is_call && callee < calls.places.len() && (left == 1 || !s.seen[callee]) {
            topo_visit(calls, callee, s, left - 1)?;
        }
    }
    s.active[c] = false;
    s.seen[c] = true;
    s.order.push(c as u8);
    Ok(())
}
