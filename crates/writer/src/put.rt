// The words of a lent module that fits, into a tray that has room for them.
ghost use Rattle.std.specs.Prelude.{◌≡◌, true, ◌+◌, ◌*◌, ◌≤◌, length};
ghost use mathlib.Core.List.{map, flat_map};
ghost use Rattle.rules.specs.Form.{extra_words};
ghost use Rattle.rules.specs.Writing.{op_word, every, op_fits, held_constants, held_ops, held};
ghost use Rattle.text.specs.Paste.{pasted, Put};
ghost use Rattle.writer.specs.Size.{four_words, constants_fit, constants_words, one_fits, one_words, all_fit, all_words};
ghost use Rattle.writer.specs.Lent.{own_of};

use crate::fits::trimmed;
use crate::lent::{CONSTANT_WORDS, EXTRA_WORDS, Head, LENT_CHUNK, LENT_CONSTANT, Lent, split};
use words::fields;
use words::kinds::Kind;

// The tray is lent, by C too, and what lies behind the words is left: so a place goes along with it here, and not a list that grows.

// The four words of a constant of that kind, 16 bits each. The kind is a sum with the number that is lent.
fn put_constant(kind: u32, low: u32, high: u32, tray: &mut [u32], at: usize)
    requires { (kind ≤ 203) × (at + 4 ≤ length tray.old) }
    ensures { tray.new ≡ pasted at (four_words kind low high) tray.old }
{
    let first = kind * fields::KIND_UNIT;
    tray[at] = first + low % fields::B_UNIT;
    tray[at + 1] = first + fields::B_UNIT + low / fields::B_UNIT;
    tray[at + 2] = first + 2 * fields::B_UNIT + high % fields::B_UNIT;
    tray[at + 3] = first + 3 * fields::B_UNIT + high / fields::B_UNIT;
}

// The words of constants from place `at` on, and the place behind them. Kind 203 of one that is no integer is 202 + 1, as its first number is 1, and its halves
// are 0.
fn put_constants(constants: &[u32], tray: &mut [u32], at: usize) -> usize
    requires { (constants_fit (held_constants constants.now) ≡ true) × (at + length (constants_words (held_constants constants.now)) ≤ length tray.old) }
    ensures { Put at (constants_words (held_constants constants.now)) tray.old tray.new result }
{
    let mut next = at;
    for &[t, low, high] in constants.as_chunks::<LENT_CONSTANT>().0 {
        put_constant(Kind::Integer as u32 + t, low, high, tray, next);
        next += CONSTANT_WORDS;
    }
    next
}

// The words of ops from place `at` on, and the place behind them. Their kinds are numbers, as an editor lends them.
fn put_ops(ops: &[u32], tray: &mut [u32], at: usize) -> usize
    requires { (every op_fits (held_ops ops.now) ≡ true) × (at + length (map op_word (held_ops ops.now)) ≤ length tray.old) }
    ensures { Put at (map op_word (held_ops ops.now)) tray.old tray.new result }
{
    let mut next = at;
    let mut rest = ops;
    while let [k, a, b, behind @ ..] = rest {
        tray[next] = *k * fields::KIND_UNIT + *b * fields::B_UNIT + *a;
        next += 1;
        rest = behind;
    }
    next
}

// The words of extras from place `at` on, and the place behind them.
fn put_extras(extras: &[u32], tray: &mut [u32], at: usize) -> usize
    requires { at + length (flat_map extra_words extras.now) ≤ length tray.old }
    ensures { Put at (flat_map extra_words extras.now) tray.old tray.new result }
{
    let kind = Kind::Extra as u32 * fields::KIND_UNIT;
    let mut next = at;
    for x in extras {
        tray[next] = kind + *x % fields::B_UNIT;
        tray[next + 1] = kind + fields::B_UNIT + *x / fields::B_UNIT;
        next += EXTRA_WORDS;
    }
    next
}

// The words of a chunk whose own these lists are, from place `at` on, and the place behind them.
fn put_chunk(h: Head, own: Lent<'_>, tray: &mut [u32], at: usize) -> usize
    requires { (one_fits (own_of h own) ≡ true) × (at + length (one_words (own_of h own)) ≤ length tray.old) }
    ensures { Put at (one_words (own_of h own.entry)) tray.old tray.new result }
{
    tray[at] = Kind::Chunk as u32 * fields::KIND_UNIT + h.mode * fields::B_UNIT + h.locals;
    let first = put_constants(own.constants, tray, at + 1);
    let second = put_ops(own.ops, tray, first);
    put_extras(trimmed(own.extras), tray, second)
}

// The words of all chunks, behind the module's head.
pub fn put_chunks(chunks: &[u32], lent: Lent<'_>, tray: &mut [u32])
    requires { (all_fit (held chunks.now lent.constants.now lent.ops.now lent.extras.now) ≡ true) × (1 + length (all_words (held chunks.now lent.constants.now lent.ops.now lent.extras.now)) ≤ length tray.old) }
    ensures { tray.new ≡ pasted 1 (all_words (held chunks.now lent.entry.constants.now lent.entry.ops.now lent.entry.extras.now)) tray.old }
{
    let mut at = 1;
    let mut rest = lent;
    for &five in chunks.as_chunks::<LENT_CHUNK>().0 {
        let h = Head::from(five);
        let (own, behind) = split(rest, h).unwrap();
        at = put_chunk(h, own, tray, at);
        rest = behind;
    }
}
