// Which counts need no trust: request 2.8's two conditions on a loop that has a count.
ghost use Rattle.std.specs.Prelude.{◌≡◌, ◌&&◌, ◌||◌, ℕ, ◌-◌, ◌^◌, ◌≤◌, ◌<◌, eqb, pos, ◌+ℤ◌, ◌-ℤ◌, ◌<ℤ◌, length};
ghost use Rattle.std.specs.Int.Signed.{le_z};
ghost use Rattle.rules.specs.Limits.{most_words};
ghost use Rattle.rules.specs.Outcome.{found};
ghost use Rattle.rules.specs.Ops.{op_at};
ghost use Rattle.rules.specs.Reading.{constants_of};
ghost use Rattle.rules.specs.Sure.{array_stops, stops_at, sum_fits, loop_stops};
ghost use Rattle.rules.specs.Placed.{all_of, balanced, beside, row_count};
ghost use Rattle.words.specs.Chunks.{chunk_of};
ghost use Rattle.words.specs.Refusals.{result_of};
ghost use Rattle.count.specs.Count.{SetAt, BoundAt};

use crate::bound::{Bound, bound_at};
use crate::search::last_set;
use words::chunk::Chunk;
use words::fields;
use words::fields::is;
use words::kinds::Kind;
use words::refusals::{Fault, Refusal};

// The ops from i up to `to` close as many blocks as they open. The pass is not cut short, so that the machine can take several ops at a time.
fn is_balanced(ops: &[u32], i: usize, to: usize) -> bool
    requires { (i ≤ to) × (to ≤ length ops.now) × (length ops.now ≤ most_words) }
    ensures { result ≡ balanced (op_at ops.now) i to }
{
    let mut closed: u32 = 0;
    let mut opened: u32 = 0;
    for &w in &ops[i..to] {
        closed += (is(w, Kind::EndIf) | is(w, Kind::EndLoop)) as u32;
        opened += (is(w, Kind::If) | is(w, Kind::Loop)) as u32;
    }
    closed == opened
}

// The row that begins at `from` and holds what stands at `to` directly holds the op at s too: s is not before the row, and in no block of it.
fn is_beside(ops: &[u32], from: usize, s: usize, to: usize) -> bool
    requires { (s < to) × (to ≤ length ops.now) × (length ops.now ≤ most_words) }
    ensures { result ≡ beside (op_at ops.now) from to s }
{
    from <= s && is_balanced(ops, s + 1, to)
}

// The same of every SetLocal at which the search of an array's length below `before` stops: the array's, and those of the slots that it was copied from.
fn array_is_beside(ops: &[u32], from: usize, before: usize, slot: u32) -> bool
    requires { (before ≤ length ops.now) × (length ops.now ≤ most_words) }
    ensures { result ≡ all_of (beside (op_at ops.now) from before) (array_stops ops.now before slot) }
{
    let mut i = before;
    let mut slot = slot;
    // A copy is followed from where it stands, so no `for` counts the positions.
    loop {
        let found = last_set(ops, i, slot, false);
        let Some(at) = found else {
            break true;
        };
        if at == 0 {
            break true;
        }
        if !is_beside(ops, from, at, i) {
            break false;
        }
        let w = ops[at - 1];
        if !is(w, Kind::GetLocal) {
            break true;
        }
        i = at - 1;
        slot = w % fields::B_UNIT;
    }
}

// The same of every SetLocal at which the search of a value below p stopped; the first is at `at`.
fn value_is_beside(ops: &[u32], from: usize, p: usize, at: usize) -> bool
    requires { ((slot : ℕ) × SetAt ops.now p slot at) × (length ops.now ≤ most_words) }
    ensures { result ≡ all_of (beside (op_at ops.now) from p) (stops_at ops.now (found at)) }
{
    if !is_beside(ops, from, at, p) {
        return false;
    }
    if at == 1 || !is(ops[at - 1], Kind::Len) {
        return true;
    }
    let array = ops[at - 2];
    if !is(array, Kind::GetLocal) {
        return true;
    }
    array_is_beside(ops, from, at - 2, array % fields::B_UNIT)
}

// End - 1 + step is at most 2^63 - 1; where there is no pass, that is not asked.
fn sum_fits(passes: u32, stop: i64, step: i64) -> bool
    requires { pos 0 <ℤ step }
    ensures { result ≡ (eqb passes 0 || le_z ((stop -ℤ pos 1) +ℤ step) (pos (2 ^ 63 - 1))) }
{
    passes == 0 || stop <= i64::MAX - (step - 1)
}

// Request 2.8's two conditions on the count of the loop at p, which stands directly in the row that begins at `from`.
fn is_sure(chunk: &Chunk<'_>, from: usize, p: usize, bound: &Bound) -> bool
    requires { BoundAt (constants_of chunk.now.constants.now) chunk.now.ops.now p bound.now }
    ensures { result ≡ (all_of (beside (op_at chunk.now.ops.now) from p) (loop_stops chunk.now.ops.now p) && sum_fits (chunk_of chunk.now) p bound.now.passes) }
{
    sum_fits(bound.passes, bound.stop.value, bound.step)
        && value_is_beside(chunk.ops, from, p, bound.start)
        && value_is_beside(chunk.ops, from, p, bound.stop.at)
}

// The count of the loop at p, directly in the row that begins at `from`, which has to be sure: 9 if there is none, 16 if it is not.
pub fn sure_passes(chunk: &Chunk<'_>, from: usize, p: usize) -> Result<u32, Fault>
    ensures { result_of (λ n. n) result ≡ row_count (chunk_of chunk.now) from p }
{
    let counted = bound_at(chunk, p);
    let Some(bound) = counted else {
        return Err(Refusal::NoCount.at(p));
    };
    if !is_sure(chunk, from, p, &bound) {
        return Err(Refusal::UnsureCount.at(p));
    }
    Ok(bound.passes)
}
