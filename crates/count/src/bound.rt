// The count of a loop: header, tail, and the distance of the two values divided by the step.
ghost use Rattle.std.specs.Prelude.{◌≡◌, ◌&&◌, ℕ, ◌+◌, ◌-◌, ◌^◌, ◌≤◌, ◌<◌, length, get_or};
ghost use Rattle.rules.specs.Form.{other};
ghost use Rattle.rules.specs.Reading.{constants_of};
ghost use Rattle.rules.specs.Count.{has_header, has_increment, has_tail, never_sets, is_positive, passes, count_at};
ghost use Rattle.words.specs.Found.{found_of};
ghost use Rattle.count.specs.Count.{passes_found, BoundIs};

use crate::search::{Traced, has_slot, never_sets, op_at, trace_const_set_local};
use words::chunk::Chunk;
use words::fields;
use words::fields::is;
use words::kinds::Kind;
use words::values::constant_at;

// Behind Loop at p stand GetLocal, GetLocal, CmpGe, BreakIf.
pub fn has_header(chunk: &Chunk<'_>, p: usize) -> bool
    requires { p < length chunk.now.ops.now }
    ensures { result ≡ has_header chunk.now.ops.now p }
{
    let ops = chunk.ops;
    is(op_at(ops, p), Kind::Loop)
        & is(op_at(ops, p + 1), Kind::GetLocal)
        & is(op_at(ops, p + 2), Kind::GetLocal)
        & is(op_at(ops, p + 3), Kind::CmpGe)
        & is(op_at(ops, p + 4), Kind::BreakIf)
}

// The constant of an index is an integer over 0.
fn is_positive(constants: &[u32], i: usize) -> bool
    ensures { result ≡ is_positive (get_or (constants_of constants.now) i other) }
{
    constant_at(constants, i).is_some_and(|n| 0 < n)
}

// The five ops right before EndLoop at n advance v: GetLocal v, Const over 0, CheckedAdd, PopN 2, SetLocal v.
fn has_increment(constants: &[u32], ops: &[u32], n: usize, v: u32) -> bool
    requires { 10 ≤ n }
    ensures { result ≡ has_increment (constants_of constants.now) ops.now n v }
{
    let step = op_at(ops, n - 4);
    let pop = op_at(ops, n - 2);
    has_slot(op_at(ops, n - 5), Kind::GetLocal, v)
        & is(step, Kind::Const)
        & is_positive(constants, (step % fields::B_UNIT) as usize)
        & is(op_at(ops, n - 3), Kind::CheckedAdd)
        & is(pop, Kind::PopN)
        & (pop / fields::B_UNIT % fields::B_VALUES == 2)
        & has_slot(op_at(ops, n - 1), Kind::SetLocal, v)
}

// The body of the loop at p, whose EndLoop is to be at n, advances v once, at its tail, and sets neither v elsewhere nor e. The op right before EndLoop sets v,
// so v is not e, and of the ops before the increment none sets either.
pub fn loop_body_advances_induction(chunk: &Chunk<'_>, p: usize, n: usize, v: u32, e: u32) -> bool
    requires { p < length chunk.now.ops.now }
    ensures { result ≡ has_tail (constants_of chunk.now.constants.now) chunk.now.ops.now p n v e }
{
    if n < p + 10 || !is(op_at(chunk.ops, n), Kind::EndLoop) {
        return false;
    }
    if v == e || !has_increment(chunk.constants, chunk.ops, n, v) {
        return false;
    }
    never_sets(chunk.ops, v, e, n - (p + 10), p + 5)
}

// How many steps bring a counter from start to stop or past it: none if the distance leaves 64 bits or they are more than 4,294,967,295.
fn passes_of(start: i64, stop: i64, step: u64) -> Option<u32>
    requires { (0 < step) × (step < 2 ^ 63) }
    ensures { found_of result ≡ passes start stop step }
{
    if stop < start {
        return Some(0);
    }
    let distance = stop.checked_sub(start)?;
    u32::try_from((distance as u64).div_ceil(step)).ok()
}

// A loop's count and what it is of: where the searches of its start and of its end stopped, the end's value, and the step.
#[derive(Clone, Copy, Debug, PartialEq, Eq)]
pub struct Bound {
    pub passes: u32,
    pub start: usize,
    pub stop: Traced,
    pub step: i64,
}

// The count of the loop at p, if it has one.
pub fn bound_at(chunk: &Chunk<'_>, p: usize) -> Option<Bound>
    ensures passes { passes_found result ≡ count_at (constants_of chunk.now.constants.now) chunk.now.ops.now p }
    ensures bound { BoundIs (constants_of chunk.now.constants.now) chunk.now.ops.now p result }
{
    let ops = chunk.ops;
    if ops.len() <= p || !has_header(chunk, p) {
        return None;
    }
    let v = op_at(ops, p + 1) % fields::B_UNIT;
    let e = op_at(ops, p + 2) % fields::B_UNIT;
    let target = (op_at(ops, p) % fields::B_UNIT) as usize;
    if target == 0 || !loop_body_advances_induction(chunk, p, target - 1, v, e) {
        return None;
    }
    // Document 01 names this form: each search's found-or-none in a local, taken apart by `let .. else`.
    let first = trace_const_set_local(chunk.constants, ops, p, v);
    let Some(start) = first else {
        return None;
    };
    let last = trace_const_set_local(chunk.constants, ops, p, e);
    let Some(stop) = last else {
        return None;
    };
    let i = (op_at(ops, target - 5) % fields::B_UNIT) as usize;
    let step = constant_at(chunk.constants, i)?;
    let passes = passes_of(start.value, stop.value, step as u64)?;
    Some(Bound {
        passes,
        start: start.at,
        stop,
        step,
    })
}

// Its passes alone.
pub fn extract_loop_iteration_bound(chunk: &Chunk<'_>, p: usize) -> Option<u32>
    ensures { found_of result ≡ count_at (constants_of chunk.now.constants.now) chunk.now.ops.now p }
{
    let bound = bound_at(chunk, p)?;
    Some(bound.passes)
}
