// The reader: whether words are a module, and if not, where the form is broken. It goes from stage to stage, and inside a stage past whole parts at once.
ghost use Rattle.std.specs.Prelude.{◌≡◌, ◌+◌, ◌≤◌, ◌<◌, length, drop};
ghost use Rattle.rules.specs.Limits.{most_words};
ghost use Rattle.rules.specs.Reading.{before_chunk, in_constants, in_constant, in_ops, in_extras, in_extra, is_head, is_chunk};
ghost use Rattle.rules.specs.Reading.{chunk_next, constant_next, op_next, extra_next, step, may_end, broken_at};
ghost use Rattle.rules.specs.Sheet.{read_outcome};
ghost use Rattle.words.specs.Found.{found_of};
ghost use Rattle.words.specs.Refusals.{outcome_of};
ghost use Rattle.words.specs.Reader.{stage_of, next_of, counter};

use crate::fields;
use crate::fields::{is, is_op};
use crate::kinds::{Kind, Mode};
use crate::limits::{CHUNKS, WORDS};
use crate::refusals::{Refusal, Refused};
use crate::whole::{is_constant, is_extra, past_constants, past_extras, past_ops};

// Where the reader stands between two words; the last number is that of the chunks still to come, the first of `InConstant` the kind of the words of that
// constant as they are read.
#[derive(Clone, Copy, Debug, PartialEq, Eq)]
pub enum Stage {
    BeforeChunk(u32),
    InConstants(u32),
    InConstant(u32, u32, u32),
    InOps(u32, u32),
    InExtras(u32, u32),
    InExtra(u32, u32),
}

// A stage, and the position that it stands at.
#[derive(Clone, Copy, Debug, PartialEq, Eq)]
pub struct Place {
    pub stage: Stage,
    pub at: usize,
}

// The chunk count as the head has it.
const MOST_CHUNKS: u32 = CHUNKS as u32;

// Kind 199, b 0, and from 1 to 256 chunks.
fn is_head(w: u32) -> bool
    ensures { result ≡ is_head w }
{
    is(w, Kind::Module)
        && w / fields::B_UNIT % fields::B_VALUES == 0
        && 1 <= w % fields::B_UNIT
        && w % fields::B_UNIT <= MOST_CHUNKS
}

// Kind 200, and a type from 0 to 2: a word may have any number there, so it is compared as one.
fn is_chunk(w: u32) -> bool
    ensures { result ≡ is_chunk w }
{
    is(w, Kind::Chunk) && w / fields::B_UNIT % fields::B_VALUES <= Mode::Stream as u32
}

// A chunk's head, while chunks are to come.
fn chunk_next(n: u32, w: u32) -> Option<Stage>
    ensures { next_of result ≡ chunk_next n w }
{
    if n == 0 || !is_chunk(w) {
        return None;
    }
    Some(Stage::InConstants(n - 1))
}

// The first word of a constant.
fn constant_next(n: u32, w: u32) -> Option<Stage>
    ensures { next_of result ≡ constant_next n w }
{
    if is_constant(Kind::Integer as u32, 0, w) {
        return Some(Stage::InConstant(Kind::Integer as u32, 1, n));
    }
    if is_constant(Kind::Other as u32, 0, w) {
        return Some(Stage::InConstant(Kind::Other as u32, 1, n));
    }
    None
}

// One op more than k.
fn op_next(k: u32, n: u32, w: u32) -> Option<Stage>
    requires { k < 65536 }
    ensures { next_of result ≡ op_next k n w }
{
    if is_op(w) {
        Some(Stage::InOps(k + 1, n))
    } else {
        None
    }
}

// The low half of an extra, while k ops have none.
fn extra_next(k: u32, n: u32, w: u32) -> Option<Stage>
    ensures { next_of result ≡ extra_next k n w }
{
    if k == 0 || !is_extra(0, w) {
        return None;
    }
    Some(Stage::InExtra(k - 1, n))
}

// Among the constants: one more, the first op, or the next chunk.
fn in_constants(n: u32, w: u32) -> Option<Stage>
    ensures { next_of result ≡ step (in_constants n) w }
{
    constant_next(n, w)
        .or_else(|| op_next(0, n, w))
        .or_else(|| chunk_next(n, w))
}

// Inside a constant, of which k is the kind of its words as they are read: its next word.
fn in_constant(k: u32, b: u32, n: u32, w: u32) -> Option<Stage>
    requires { b < 65536 }
    ensures { next_of result ≡ step (in_constant k b n) w }
{
    if !is_constant(k, b, w) {
        return None;
    }
    if b == 3 {
        Some(Stage::InConstants(n))
    } else {
        Some(Stage::InConstant(k, b + 1, n))
    }
}

// Behind k ops: one more, the first extra, or the next chunk.
fn in_ops(k: u32, n: u32, w: u32) -> Option<Stage>
    requires { k < 65536 }
    ensures { next_of result ≡ step (in_ops k n) w }
{
    op_next(k, n, w)
        .or_else(|| extra_next(k, n, w))
        .or_else(|| chunk_next(n, w))
}

// Among the extras: one more, or the next chunk.
fn in_extras(k: u32, n: u32, w: u32) -> Option<Stage>
    ensures { next_of result ≡ step (in_extras k n) w }
{
    extra_next(k, n, w).or_else(|| chunk_next(n, w))
}

// Behind the low half of an extra: the high half.
fn in_extra(k: u32, n: u32, w: u32) -> Option<Stage>
    ensures { next_of result ≡ step (in_extra k n) w }
{
    if is_extra(1, w) {
        Some(Stage::InExtras(k, n))
    } else {
        None
    }
}

// One word more. Each stage has numbers of its own, so this is a `match` and no table of functions.
fn step_on(s: Stage, w: u32) -> Option<Stage>
    requires { counter (stage_of s) < 65536 }
    ensures { next_of result ≡ step (stage_of s) w }
{
    match s {
        Stage::BeforeChunk(n) => chunk_next(n, w),
        Stage::InConstants(n) => in_constants(n, w),
        Stage::InConstant(k, b, n) => in_constant(k, b, n, w),
        Stage::InOps(k, n) => in_ops(k, n, w),
        Stage::InExtras(k, n) => in_extras(k, n, w),
        Stage::InExtra(k, n) => in_extra(k, n, w),
    }
}

// Behind the whole constants, ops or extras that follow at `from`: read from there, the form is broken where it was.
fn run_on(words: &[u32], from: usize, s: Stage) -> Place
    requires { (from ≤ length words.now) × (length words.now ≤ most_words) × (counter (stage_of s) ≤ from) }
    ensures within { (from ≤ result.at) × (result.at ≤ length words.now) × (counter (stage_of result.stage) ≤ result.at) }
    ensures same { broken_at (stage_of s) (drop from words.now) from ≡ broken_at (stage_of result.stage) (drop result.at words.now) result.at }
{
    match s {
        Stage::InConstants(_) => Place {
            stage: s,
            at: past_constants(words, from),
        },
        Stage::InOps(k, n) => {
            let at = past_ops(words, from);
            let passed = (at - from) as u32;
            let behind = k + passed;
            Place {
                stage: Stage::InOps(behind, n),
                at,
            }
        }
        Stage::InExtras(k, n) => {
            let at = past_extras(words, from, k);
            Place {
                stage: Stage::InExtras(k - ((at - from) / 2) as u32, n),
                at,
            }
        }
        _ => Place { stage: s, at: from },
    }
}

// Whether a module may end here.
fn may_end(s: Stage) -> bool
    ensures { result ≡ may_end (stage_of s) }
{
    match s {
        Stage::BeforeChunk(_) => false,
        Stage::InConstants(n) => n == 0,
        Stage::InConstant(_, _, _) => false,
        Stage::InOps(_, n) => n == 0,
        Stage::InExtras(_, n) => n == 0,
        Stage::InExtra(_, _) => false,
    }
}

// The place at which the form is broken behind a head that announces this many chunks.
fn broken_at(words: &[u32], chunks: u32) -> Option<usize>
    requires { (1 ≤ length words.now) × (length words.now ≤ most_words) }
    ensures { found_of result ≡ broken_at (before_chunk chunks) (drop 1 words.now) 1 }
{
    let mut s = Stage::BeforeChunk(chunks);
    let mut i = 1;
    // The position moves past a whole run of words at once, so no `for` counts it.
    while i < words.len() {
        let next = step_on(s, words[i]);
        let Some(t) = next else {
            return Some(i);
        };
        i += 1;
        let p = run_on(words, i, t);
        s = p.stage;
        i = p.at;
    }
    if may_end(s) { None } else { Some(i) }
}

// Whether the words are a module: the number of its chunks, or refusal 1 or 2 with its place. One pass: only where constants, ops or extras end are the next
// few words looked at again.
pub fn read_module(words: &[u32]) -> Result<u32, Refused>
    ensures { outcome_of (λ n. n) result ≡ read_outcome words.now }
{
    if words.is_empty() || WORDS < words.len() || !is_head(words[0]) {
        return Err(Refusal::BadHead.at(0).in_chunk(0));
    }
    let chunks = words[0] % fields::B_UNIT;
    let broken = broken_at(words, chunks);
    match broken {
        Some(i) => Err(Refusal::BadWord.at(i).in_chunk(0)),
        None => Ok(chunks),
    }
}
