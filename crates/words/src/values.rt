// What the words of a constant and of an extra say, and the numbers of a list by chunk index.
ghost use Rattle.std.specs.Prelude.{◌≡◌, ◌%◌, get_or};
ghost use Rattle.rules.specs.Form.{other};
ghost use Rattle.rules.specs.Reading.{constants_of, extras_of, extra_at};
ghost use Rattle.words.specs.Values.{constant_is};

use crate::fields;
use crate::fields::is;
use crate::kinds::Kind;

// A word holds 16 bits of a constant.
const SIXTEEN_BITS: u64 = 65536;

// A word's low 16 bits, wide.
fn low(w: u32) -> u64
    ensures { result ≡ w % 65536 }
{
    (w % fields::B_UNIT) as u64
}

// The constant of an index, four words each, in two's complement at 64 bits; none where it is no integer, and none past the end.
pub fn constant_at(constants: &[u32], i: usize) -> Option<i64>
    ensures { constant_is result ≡ get_or (constants_of constants.now) i other }
{
    if constants.len() / 4 <= i {
        return None;
    }
    let at = 4 * i;
    if !is(constants[at], Kind::Integer) {
        return None;
    }
    let high = low(constants[at + 2]) + SIXTEEN_BITS * low(constants[at + 3]);
    let bits = low(constants[at]) + SIXTEEN_BITS * (low(constants[at + 1]) + SIXTEEN_BITS * high);
    Some(bits.cast_signed())
}

// The extra of an op's position, two words each; a missing one is 0.
pub fn extra_at(extras: &[u32], i: usize) -> u32
    ensures { result ≡ extra_at (extras_of extras.now) i }
{
    if extras.len() / 2 <= i {
        return 0;
    }
    let at = 2 * i;
    extras[at] % fields::B_UNIT + fields::B_UNIT * (extras[at + 1] % fields::B_UNIT)
}

// The number that a list has for a chunk, by its index; past the end it is 0.
pub fn number_at(numbers: &[u32], k: usize) -> u32
    ensures { result ≡ get_or numbers.now k 0 }
{
    numbers.get(k).copied().unwrap_or(0)
}
