// The walked range of a chunk, and forward targets.
ghost use Rattle.std.specs.Prelude.{◌≡◌, length};
ghost use Rattle.rules.specs.Rows.{first_of, range_by, is_backward, first_backward};
ghost use Rattle.words.specs.Found.{found_of};
ghost use Rattle.words.specs.Kinds.{kind_number};
ghost use Rattle.words.specs.Refusals.{result_of};
ghost use Rattle.rows.specs.Ranges.{range_is};

use words::fields;
use words::fields::is;
use words::kinds::{Kind, Mode};
use words::refusals::{Fault, Refusal};

// A stretch of positions, the end not included. That it lies in the ops is no fact about it alone, so it stands in the contracts.
#[derive(Clone, Copy, Debug, PartialEq, Eq)]
pub struct Range {
    pub from: usize,
    pub to: usize,
}

// The first op of a kind.
fn first_of(ops: &[u32], k: Kind) -> Option<usize>
    ensures { found_of result ≡ first_of (kind_number k) ops.now 0 }
{
    ops.iter().position(|&w| is(w, k))
}

// All ops, or in a chunk whose type is the number of Stream those behind the first Stream and before the first Reset; or refusal 3 or 4.
pub fn range_of(mode: u32, ops: &[u32]) -> Result<Range, Fault>
    ensures { result_of range_is result ≡ range_by mode ops.now }
{
    if mode != Mode::Stream as u32 {
        return Ok(Range {
            from: 0,
            to: ops.len(),
        });
    }
    let stream = first_of(ops, Kind::Stream).ok_or(Refusal::NoStream.at(0))?;
    let reset = first_of(ops, Kind::Reset).ok_or(Refusal::NoReset.at(0))?;
    let from = stream + 1;
    Ok(Range {
        from,
        to: reset.max(from),
    })
}

// The target of the op w at i is not behind it, or past the length n.
fn is_backward(n: usize, i: usize, w: u32) -> bool
    ensures { result ≡ is_backward n i w }
{
    if !is(w, Kind::If) && !is(w, Kind::Else) && !is(w, Kind::Loop) {
        return false;
    }
    let target = (w % fields::B_UNIT) as usize;
    target <= i || n < target
}

// The first If, Else or Loop whose target is not behind it, or past the length.
pub fn check_forward_control_flow_targets(ops: &[u32]) -> Option<usize>
    ensures { found_of result ≡ first_backward (length ops.now) 0 ops.now }
{
    for (i, &w) in ops.iter().enumerate() {
        if is_backward(ops.len(), i, w) {
            return Some(i);
        }
    }
    None
}
