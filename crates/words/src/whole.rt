// Whole constants, ops and extras: as many as follow one another are passed over in one loop. Read from behind them, the form is broken where it was.
ghost use Rattle.std.specs.Prelude.{◌≡◌, ◌&&◌, ℕ, ◌+◌, ◌-◌, ◌/◌, ◌≤◌, length, drop};
ghost use Rattle.rules.specs.Ops.{kind};
ghost use Rattle.rules.specs.Reading.{in_constants, in_ops, in_extras, of_constants, is_constant, is_extra, broken_at};

use crate::fields;
use crate::fields::{is, is_op};
use crate::kinds::Kind;

// A word of a constant of kind k with this b; where it is no integer, a is 0. The kind is that of any word that is read, so it stays a number.
pub fn is_constant(k: u32, b: u32, w: u32) -> bool
    ensures { result ≡ is_constant k b w }
{
    w / fields::KIND_UNIT == k
        && w / fields::B_UNIT % fields::B_VALUES == b
        && (k == Kind::Integer as u32 || w % fields::B_UNIT == 0)
}

// Half of an extra: the low one has b 0, the high one b 1.
pub fn is_extra(b: u32, w: u32) -> bool
    ensures { result ≡ is_extra b w }
{
    is(w, Kind::Extra) && w / fields::B_UNIT % fields::B_VALUES == b
}

// The four words of a constant, all of the kind that the first has, whatever it is.
fn is_whole_constant(s: u32, t: u32, u: u32, v: u32) -> bool
    ensures { result ≡ (of_constants s && is_constant (kind s) 0 s && is_constant (kind s) 1 t && is_constant (kind s) 2 u && is_constant (kind s) 3 v) }
{
    let k = s / fields::KIND_UNIT;
    ((k == Kind::Integer as u32) | (k == Kind::Other as u32))
        & is_constant(k, 0, s)
        & is_constant(k, 1, t)
        & is_constant(k, 2, u)
        & is_constant(k, 3, v)
}

// The two words of an extra.
fn is_whole_extra(s: u32, t: u32) -> bool
    ensures { result ≡ (is_extra 0 s && is_extra 1 t) }
{
    is_extra(0, s) & is_extra(1, t)
}

// Behind the whole constants from `from` on. That the place lies in the list, here and below, is a bound of one number: a type for it would be made to be taken apart.
pub fn past_constants(words: &[u32], from: usize) -> usize
    requires { from ≤ length words.now }
    ensures within { (from ≤ result) × (result ≤ length words.now) }
    ensures same { (n : ℕ) → broken_at (in_constants n) (drop from words.now) from ≡ broken_at (in_constants n) (drop result words.now) result }
{
    let mut rest = &words[from..];
    while let [s, t, u, v, behind @ ..] = rest {
        if !is_whole_constant(*s, *t, *u, *v) {
            break;
        }
        rest = behind;
    }
    words.len() - rest.len()
}

// Behind the ops from `from` on.
pub fn past_ops(words: &[u32], from: usize) -> usize
    requires { from ≤ length words.now }
    ensures within { (from ≤ result) × (result ≤ length words.now) }
    ensures same { (k n : ℕ) → broken_at (in_ops k n) (drop from words.now) from ≡ broken_at (in_ops (k + (result - from)) n) (drop result words.now) result }
{
    from + words[from..].iter().take_while(|&&w| is_op(w)).count()
}

// Behind the whole extras from `from` on, but no more than `most` of them.
pub fn past_extras(words: &[u32], from: usize, most: u32) -> usize
    requires { from ≤ length words.now }
    ensures within { (from ≤ result) × (result ≤ length words.now) × ((result - from) / 2 ≤ most) }
    ensures same { (n : ℕ) → broken_at (in_extras most n) (drop from words.now) from ≡ broken_at (in_extras (most - (result - from) / 2) n) (drop result words.now) result }
{
    let extras = words[from..]
        .as_chunks::<2>()
        .0
        .iter()
        .take(most as usize)
        .take_while(|&&[s, t]| is_whole_extra(s, t))
        .count();
    from + 2 * extras
}
