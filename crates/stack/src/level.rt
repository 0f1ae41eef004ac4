// What an op does to the operand stack, and the level of the stack along a row.
ghost use Rattle.std.specs.Prelude.{◌≡◌, ◌<◌, ◌≤◌, nat_abs, length};
ghost use Rattle.rules.specs.Limits.{most_slots};
ghost use Rattle.rules.specs.Stack.{call_rise};
ghost use Rattle.stack.specs.Levels.{effect_at, level_over, raised_to, marked_as, Small, SmallEffect};

use words::fields;
use words::fields::is;
use words::figures::{stack_growth, stack_shrink};
use words::kinds::Kind;
use words::units::{Slots, StackBytes};
use words::values::number_at;

// An op's rise above the offset while it runs, and what it moves the offset by.
#[derive(Clone, Copy, Debug, PartialEq, Eq)]
pub struct Effect {
    pub rise: i64,
    pub shift: i64,
}

// The offset since a row's start, the peak so far, and whether a break out of the loop around the row was met.
#[derive(Clone, Copy, Debug, PartialEq, Eq)]
pub struct Level {
    pub offset: i64,
    pub peak: Slots,
    pub broken: bool,
}

// A Call's rise: the callee's slots less the arguments, at least 1. The bytes of a callee are 0 past the list's end.
fn call_rise(callees: &[u32], w: u32) -> i64
    ensures rise { result ≡ call_rise callees.now w }
    ensures small { nat_abs result ≤ most_slots }
{
    let bytes = StackBytes(number_at(callees, (w % fields::B_UNIT) as usize));
    let slots = Slots::from(bytes);
    let arguments = w / fields::B_UNIT % fields::B_VALUES;
    (slots.0 as i64 - arguments as i64).max(1)
}

// The effect of the op at i, callee bytes taken from the lent list.
pub fn op_effect(ops: &[u32], callees: &[u32], i: usize) -> Effect
    requires { i < length ops.now }
    ensures { (result ≡ effect_at ops.now callees.now i) × SmallEffect result }
{
    let w = ops[i];
    let growth = stack_growth(w) as i64;
    let shift = growth - (stack_shrink(w) as i64);
    let rise = if is(w, Kind::Call) {
        call_rise(callees, w)
    } else {
        growth
    };
    Effect { rise, shift }
}

// The level behind an op: the peak counts its rise, the offset its shift.
pub fn level_over(l: Level, e: Effect) -> Level
    requires { Small l 1073741824 × SmallEffect e }
    ensures { result ≡ level_over l e }
{
    let during = Slots((l.offset + e.rise).max(0) as u32);
    Level {
        offset: l.offset + e.shift,
        peak: l.peak.max(during),
        broken: l.broken,
    }
}

// A level with its peak raised to another, if that is greater.
pub fn raised(l: Level, peak: Slots) -> Level
    ensures { result ≡ raised_to l peak.0 }
{
    Level {
        peak: l.peak.max(peak),
        ..l
    }
}

// A level with another mark of breaks.
pub fn marked(l: Level, broken: bool) -> Level
    ensures { result ≡ marked_as l broken }
{
    Level { broken, ..l }
}
