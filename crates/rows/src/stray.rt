// The test of breaks: one pass over a row, with the targets of the open Loops in a list.
ghost use Rattle.std.specs.Prelude.{◌≡◌, false, ◌*◌, ◌-◌, ◌≤◌, length};
ghost use Rattle.rules.specs.Limits.{most_words};
ghost use Rattle.rules.specs.Ops.{op_at};
ghost use Rattle.rules.specs.Rows.{stray_break};
ghost use Rattle.words.specs.Found.{found_of};
ghost use Rattle.rows.specs.Tree.{HasRow, tree_of};

use crate::range::Range;
use crate::room::{FEW_OPS, FEW_PLACES, MOST_PLACES, SOME_OPS, SOME_PLACES};
use arrayvec::ArrayVec;
use words::chunk::Chunk;
use words::fields;
use words::kinds::Kind;

// The first Break or BreakIf of a row whose operand is not the target of the innermost Loop around it, with room for so many open Loops: a Loop takes two ops,
// so half the range is room enough, and no more than a module has words, which fits in memory. In a row every EndLoop closes the innermost open Loop, so the
// blocks between need no place.
fn stray_within<const N: usize>(chunk: &Chunk<'_>, row: Range) -> Option<usize>
    requires { (row.from ≤ row.to) × (row.to ≤ length chunk.now.ops.now) × (row.to - row.from ≤ 2 * N) × (N ≤ most_words) × HasRow (op_at chunk.now.ops.now) false row.from row.to }
    ensures { found_of result ≡ stray_break (op_at chunk.now.ops.now) 0 (tree_of (op_at chunk.now.ops.now) row.from row.to) }
{
    let mut targets: ArrayVec<u32, N> = ArrayVec::new();
    for i in row.from..row.to {
        let w = chunk.ops[i];
        // A number, since the four kinds stand together: one comparison passes over the others.
        let k = w / fields::KIND_UNIT;
        if Kind::Loop as u32 <= k && k <= Kind::BreakIf as u32 {
            if k == Kind::Loop as u32 {
                targets.push(w % fields::B_UNIT);
            } else if k == Kind::EndLoop as u32 {
                let _ = targets.pop();
            } else if targets.last() != Some(&(w % fields::B_UNIT)) {
                return Some(i);
            }
        }
    }
    None
}

// The first Break or BreakIf of a row that names another target. It picks its room itself, as `is_row` does: `room` says why.
pub fn first_stray(chunk: &Chunk<'_>, row: Range) -> Option<usize>
    requires { (row.from ≤ row.to) × (row.to ≤ length chunk.now.ops.now) × HasRow (op_at chunk.now.ops.now) false row.from row.to }
    ensures { found_of result ≡ stray_break (op_at chunk.now.ops.now) 0 (tree_of (op_at chunk.now.ops.now) row.from row.to) }
{
    let n = row.to - row.from;
    if n <= FEW_OPS {
        return stray_within::<FEW_PLACES>(chunk, row);
    }
    if n <= SOME_OPS {
        return stray_within::<SOME_PLACES>(chunk, row);
    }
    stray_within::<MOST_PLACES>(chunk, row)
}
