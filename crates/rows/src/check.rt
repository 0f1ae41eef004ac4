// The row check: one pass over a range, with the end of the innermost open part at hand and the ends of the parts around it in a list.
ghost use Rattle.std.specs.Prelude.{◌≡◌, false, ◌*◌, ◌-◌, ◌≤◌, ◌<◌, length};
ghost use Rattle.rules.specs.Limits.{most_words};
ghost use Rattle.rules.specs.Ops.{op_at};
ghost use Rattle.rules.specs.Rows.{parse};
ghost use Rattle.words.specs.Refusals.{result_of};
ghost use Rattle.rows.specs.Tree.{is_row};
ghost use Rattle.rows.specs.Ranges.{range_is, range_row};
ghost use Rattle.rows.specs.Answers.{opens_if, opens_loop, opens_at};

use crate::range::{Range, check_forward_control_flow_targets, range_of};
use crate::room::{FEW_OPS, FEW_PLACES, MOST_PLACES, SOME_OPS, SOME_PLACES};
use crate::stray::first_stray;
use arrayvec::ArrayVec;
use words::chunk::Chunk;
use words::fields;
use words::fields::is;
use words::kinds::Kind;
use words::refusals::{Fault, Refusal};

// What the op at a position does to the open blocks: nothing, or it opens one that ends at a position, or it stands where it must not.
// The last is a case beside the others, and no `None`: the one caller answers `false` there, so an Option would be taken apart and hand nothing on.
#[derive(Clone, Copy, Debug, PartialEq, Eq)]
pub enum Opening {
    Plain,
    Block(usize),
    Loop(usize),
    Crossed,
}

// An If at i whose target is t, in a stretch that ends at `to`: its arm ends at Else or at EndIf.
fn opens_if(ops: &[u32], i: usize, t: usize, to: usize) -> Opening
    requires { to ≤ length ops.now }
    ensures { result ≡ opens_if (op_at ops.now) i t to }
{
    if t <= i || to < t {
        return Opening::Crossed;
    }
    let e = t - 1;
    if is(ops[e], Kind::Else) {
        let f = (ops[e] % fields::B_UNIT) as usize;
        if e < f && f < to && is(ops[f], Kind::EndIf) {
            return Opening::Block(e);
        }
        return Opening::Crossed;
    }
    if t < to && is(ops[t], Kind::EndIf) {
        return Opening::Block(t);
    }
    Opening::Crossed
}

// A Loop at i whose target is t, in a stretch that ends at `to`: its body ends at EndLoop.
fn opens_loop(ops: &[u32], i: usize, t: usize, to: usize) -> Opening
    requires { (i < to) × (to ≤ length ops.now) }
    ensures { result ≡ opens_loop (op_at ops.now) i t to }
{
    if t <= i + 1 || to < t {
        return Opening::Crossed;
    }
    if is(ops[t - 1], Kind::EndLoop) {
        return Opening::Loop(t - 1);
    }
    Opening::Crossed
}

// What the op at i opens, in a stretch that ends at `to`. The kind stays a number: those from If to BreakIf stand together, and most ops are passed over by that.
fn opens_at(ops: &[u32], i: usize, to: usize, in_loop: bool) -> Opening
    requires { (i < to) × (to ≤ length ops.now) }
    ensures { result ≡ opens_at (op_at ops.now) i to in_loop }
{
    let w = ops[i];
    let k = w / fields::KIND_UNIT;
    let t = (w % fields::B_UNIT) as usize;
    if k < Kind::If as u32 || k > Kind::BreakIf as u32 {
        return Opening::Plain;
    }
    if k == Kind::If as u32 {
        return opens_if(ops, i, t, to);
    }
    if k == Kind::Loop as u32 {
        return opens_loop(ops, i, t, to);
    }
    if (k >= Kind::Break as u32) & in_loop {
        return Opening::Plain;
    }
    Opening::Crossed
}

// Whether a range is a row, with room for so many open blocks: a block takes two ops, so half the range is room enough, and no more than a module has words,
// which fits in memory. The range is the outermost part, and a block that is open has its part inside another. Each op is held against the end of the
// innermost, so that is a variable; the list, whose length lies in memory, has the ends of the parts around it, and only a block that opens or closes touches
// it. At the end of a part an Else goes on to its own target, and EndIf and EndLoop close the block.
fn row_within<const N: usize>(chunk: &Chunk<'_>, range: Range) -> bool
    requires { (range.from ≤ range.to) × (range.to ≤ length chunk.now.ops.now) × (range.to - range.from ≤ 2 * N) × (N ≤ most_words) }
    ensures { result ≡ is_row (parse (range.to - range.from) (op_at chunk.now.ops.now) false range.from range.to) }
{
    let ops = chunk.ops;
    let mut around: ArrayVec<u32, N> = ArrayVec::new();
    let mut bound = range.to;
    let mut loops: usize = 0;
    for i in range.from..range.to {
        if i < bound {
            match opens_at(ops, i, bound, 0 < loops) {
                Opening::Plain => {}
                Opening::Block(end) => {
                    around.push(bound as u32);
                    bound = end;
                }
                Opening::Loop(end) => {
                    around.push(bound as u32);
                    bound = end;
                    loops += 1;
                }
                Opening::Crossed => return false,
            }
        } else if is(ops[i], Kind::Else) {
            bound = (ops[i] % fields::B_UNIT) as usize;
        } else {
            if is(ops[i], Kind::EndLoop) {
                loops -= 1;
            }
            // The list is not empty here: only the outermost part has none around it, and that ends with the range.
            bound = around.pop().unwrap() as usize;
        }
    }
    true
}

// Whether a range is a row. It picks its room itself, as `first_stray` does: `room` says why.
pub fn is_row(chunk: &Chunk<'_>, range: Range) -> bool
    requires { (range.from ≤ range.to) × (range.to ≤ length chunk.now.ops.now) }
    ensures { result ≡ is_row (parse (range.to - range.from) (op_at chunk.now.ops.now) false range.from range.to) }
{
    let n = range.to - range.from;
    if n <= FEW_OPS {
        return row_within::<FEW_PLACES>(chunk, range);
    }
    if n <= SOME_OPS {
        return row_within::<SOME_PLACES>(chunk, range);
    }
    row_within::<MOST_PLACES>(chunk, range)
}

// The range of a chunk that may be walked, by the tests before a walk in their order: refusal 3, 4, 5, 6 or 15.
pub fn chunk_row(chunk: &Chunk<'_>) -> Result<Range, Fault>
    ensures { result_of range_is result ≡ range_row chunk.now.mode chunk.now.ops.now }
{
    let range = range_of(chunk.mode, chunk.ops)?;
    if let Some(place) = check_forward_control_flow_targets(chunk.ops) {
        return Err(Refusal::Backward.at(place));
    }
    if !is_row(chunk, range) {
        return Err(Refusal::Crossed.at(0));
    }
    if let Some(place) = first_stray(chunk, range) {
        return Err(Refusal::StrayBreak.at(place));
    }
    Ok(range)
}
