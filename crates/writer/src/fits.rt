// Whether the parts of a chunk, as they are lent, fit their places in the words.
ghost use Rattle.std.specs.Prelude.{◌≡◌, true, ◌&&◌, ℕ, ◌≤◌, eqb, length, get_or};
ghost use Rattle.rules.specs.Writing.{trimmed, every, constant_fits, op_fits, extra_fits, held_constant, held_constants, held_ops};
ghost use Rattle.writer.specs.Size.{held_fits, constants_fit};
ghost use Rattle.writer.specs.Fields.{fields_of, no_fields};

use crate::lent::LENT_OP;
use words::fields;
use words::fields::is_op;
use words::kinds::{KINDS, Kind};

// The greatest a of a kind that uses it.
const MOST_A: u32 = 65535;

// As many numbers as make listing the greatest fields worth its time: those of 16 ops.
const MANY: usize = 16 * LENT_OP;

// A constant has one of its two forms: 0 and the halves of an integer, which always has 64 bits, or 1, 0, 0. The first number is as an editor lends it,
// so it may be any.
fn is_constant(t: u32, low: u32, high: u32) -> bool
    ensures { result ≡ held_fits constant_fits (held_constant t low high) }
{
    if t == 0 {
        return true;
    }
    (t == 1) & (low == 0) & (high == 0)
}

// Lent constants, three numbers each, have their forms, and none is cut off.
pub fn constants_fit(constants: &[u32]) -> bool
    ensures { result ≡ constants_fit (held_constants constants.now) }
{
    let mut rest = constants;
    while let [t, low, high, behind @ ..] = rest {
        if !is_constant(*t, *low, *high) {
            return false;
        }
        rest = behind;
    }
    rest.is_empty()
}

// An op whose fields fit a word that is an op of the table. Its kind is a number as an editor lends it, which may be of no kind.
fn op_fits(k: u32, a: u32, b: u32) -> bool
    ensures { result ≡ op_fits (record { kind = k; a = a; b = b }) }
{
    if k > Kind::CallExternalNative as u32 {
        return false;
    }
    if fields::B_UNIT <= a {
        return false;
    }
    if fields::B_VALUES <= b {
        return false;
    }
    is_op(k * fields::KIND_UNIT + b * fields::B_UNIT + a)
}

// A few lent ops, three numbers each, fit: each is looked at by itself.
fn few_ops_fit(ops: &[u32]) -> bool
    ensures { result ≡ every op_fits (held_ops ops.now) }
{
    let mut rest = ops;
    while let [k, a, b, behind @ ..] = rest {
        if !op_fits(*k, *a, *b) {
            return false;
        }
        rest = behind;
    }
    true
}

// The greatest fields of an op kind.
#[derive(Clone, Copy, Debug, Default, PartialEq, Eq)]
struct Greatest {
    a: u32,
    b: u32,
}

// The greatest fields of each op kind.
fn greatest_fields() -> [Greatest; KINDS]
    ensures { (k : ℕ) → k ≤ 65 → get_or result k no_fields ≡ fields_of k }
{
    let mut most = [Greatest::default(); KINDS];
    most[Kind::Const as usize].a = MOST_A;
    most[Kind::GetLocal as usize].a = MOST_A;
    most[Kind::SetLocal as usize].a = MOST_A;
    most[Kind::If as usize].a = MOST_A;
    most[Kind::Else as usize].a = MOST_A;
    most[Kind::Loop as usize].a = MOST_A;
    most[Kind::EndLoop as usize].a = MOST_A;
    most[Kind::Break as usize].a = MOST_A;
    most[Kind::BreakIf as usize].a = MOST_A;
    most[Kind::Call as usize] = Greatest { a: MOST_A, b: 255 };
    most[Kind::NewComposite as usize] = Greatest { a: MOST_A, b: 3 };
    most[Kind::GetIndex as usize].b = 1;
    most[Kind::Trap as usize].a = MOST_A;
    most[Kind::PopN as usize].b = 255;
    most[Kind::CallVerifiedNative as usize] = Greatest { a: MOST_A, b: 255 };
    most[Kind::CallExternalNative as usize] = Greatest { a: MOST_A, b: 255 };
    most
}

// Many lent ops fit, their kinds any numbers: the greatest fields of all kinds are listed once, since that takes as long as looking at some ops by themselves.
fn many_ops_fit(ops: &[u32]) -> bool
    ensures { result ≡ every op_fits (held_ops ops.now) }
{
    let most = greatest_fields();
    let mut rest = ops;
    while let [k, a, b, behind @ ..] = rest {
        if *k > Kind::CallExternalNative as u32 {
            return false;
        }
        let greatest = most[*k as usize];
        if greatest.a < *a || greatest.b < *b {
            return false;
        }
        rest = behind;
    }
    true
}

// Lent ops, three numbers each, fit.
pub fn ops_fit(ops: &[u32]) -> bool
    ensures { result ≡ every op_fits (held_ops ops.now) }
{
    if ops.len() < MANY {
        return few_ops_fit(ops);
    }
    many_ops_fit(ops)
}

// Four extras of 0.
fn are_zero(a: u32, b: u32, c: u32, d: u32) -> bool
    ensures { result ≡ (eqb a 0 && eqb b 0 && eqb c 0 && eqb d 0) }
{
    (a == 0) & (b == 0) & (c == 0) & (d == 0)
}

// The extras without those of 0 at the end, as long as eight of them stand together.
fn without_eights(extras: &[u32]) -> &[u32]
    ensures { (length result.now ≤ length extras.now) × (trimmed extras.now ≡ trimmed result.now) }
{
    let mut kept = extras;
    while let [front @ .., s, t, u, v, w, x, y, z] = kept {
        let first = are_zero(*s, *t, *u, *v);
        let second = are_zero(*w, *x, *y, *z);
        if !(first & second) {
            break;
        }
        kept = front;
    }
    kept
}

// The extras without those of 0 at the end.
pub fn trimmed(extras: &[u32]) -> &[u32]
    ensures kept { result.now ≡ trimmed extras.now }
    ensures fit { every extra_fits result.now ≡ true }
{
    let mut kept = without_eights(extras);
    while let [front @ .., 0] = kept {
        kept = front;
    }
    kept
}
