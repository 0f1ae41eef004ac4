// The proved functions under plain names, each with one number for an answer: include/pinnaclemug.h says how a refusal is packed. The crate `exports_c` hands them to
// programs in other languages.

#![tactic(auto)]

pub mod lent;

ghost use Rattle.std.specs.Prelude.{◌≡◌, ◌≤◌};
ghost use Rattle.rules.specs.Sheet.{read_outcome, count_outcome, cycles_outcome};
ghost use Rattle.rules.specs.Yields.{yield_outcome};
ghost use Rattle.words.specs.Refusals.{outcome_of, refusal_number};
ghost use Rattle.exports.specs.Packed.{packed_number, flagged, packed_cycles, packed_coverage, packed_refusal};

use count::entry::loop_count;
use cycles::entry::cycle_walk;
use words::reader::read_module;
use words::refusals::Refused;
use yields::entry::{Coverage, yield_coverage};

// How many numbers, chunks and places a refusal is kept whole for: 2^8, 2^24 and 2^32.
const NUMBERS: u64 = 256;

const CHUNKS: u64 = 16777216;

const PLACES: u64 = 4294967296;

// What a refusal's number stands for: 2^56.
const NUMBER_UNIT: u64 = CHUNKS * PLACES;

// A row that ends, and cycles that are cut, above 32 bits of cycles: 2^32 and 2^33.
const ENDS: u64 = 4294967296;

const CUT: u64 = 2 * ENDS;

// A refusal as one number: eight bits of its number, 24 of its chunk and 32 of its place. That is all of each but where a chunk or a position that is
// handed in is greater.
fn pack_refusal(refused: Refused) -> u64
    ensures { result ≡ packed_refusal (refusal_number refused.refusal) refused.chunk refused.place }
{
    refused.refusal.number() as u64 % NUMBERS * NUMBER_UNIT
        + refused.chunk as u64 % CHUNKS * PLACES
        + refused.place as u64 % PLACES
}

// A number, or a refusal, as one number.
fn pack(answer: Result<u32, Refused>) -> u64
    ensures { result ≡ packed_number (outcome_of (λ n. n) answer) }
{
    match answer {
        Ok(n) => n as u64,
        Err(refused) => pack_refusal(refused),
    }
}

// The reader: the chunk count.
pub fn pm_read(words: &[u32]) -> u64
    ensures { result ≡ packed_number (read_outcome words.now) }
{
    pack(read_module(words))
}

// The count of the loop at position p of chunk c.
pub fn pm_count(words: &[u32], c: u32, p: u32) -> u64
    ensures { result ≡ packed_number (count_outcome words.now c p) }
{
    pack(loop_count(words, c as usize, p as usize))
}

// A flag of so much, where it is set: a multiplication by `u64::from(is)` would be no plainer.
fn flag(is: bool, value: u64) -> u64
    ensures is { result ≡ flagged is value }
    ensures most { result ≤ value }
{
    if is { value } else { 0 }
}

// The cycle walk of chunk c: its cycles, 2^32 more if its row ends, and 2^33 more if its cycles are cut.
pub fn pm_cycles(words: &[u32], c: u32) -> u64
    ensures { result ≡ packed_cycles (cycles_outcome words.now c) }
{
    let answer = cycle_walk(words, c as usize);
    match answer {
        Ok(figure) => figure.cycles as u64 + flag(figure.ends, ENDS) + flag(figure.cut, CUT),
        Err(refused) => pack_refusal(refused),
    }
}

// Yield coverage of chunk c over a list by chunk index, 1 for a callee that always yields: 0 for no, 1 for yes, 2 for never.
pub fn pm_yields(words: &[u32], c: u32, list: &[u32]) -> u64
    ensures { result ≡ packed_coverage (yield_outcome words.now c list.now) }
{
    match yield_coverage(words, c as usize, list) {
        Ok(Coverage::No) => 0,
        Ok(Coverage::Yes) => 1,
        Ok(Coverage::Never) => 2,
        Err(refused) => pack_refusal(refused),
    }
}
