// Searches that run backward over the ops of a chunk.
ghost use Rattle.std.specs.Prelude.{◌≡◌, ◌&&◌, ◌+◌, ◌<◌, ◌≤◌, eqb, length};
ghost use Rattle.rules.specs.Ops.{kind, field_a, op_at};
ghost use Rattle.rules.specs.Reading.{constants_of};
ghost use Rattle.rules.specs.Outcome.{found};
ghost use Rattle.rules.specs.Count.{never_sets, last_set, array_length, value_at, value_of};
ghost use Rattle.words.specs.Kinds.{kind_number};
ghost use Rattle.words.specs.Found.{found_of};
ghost use Rattle.count.specs.Count.{value_is, traced_is, StopsAt};

use words::fields;
use words::fields::is;
use words::kinds::Kind;
use words::limits::NO_OP;
use words::values::constant_at;

// The op at a position; past the end a word that is no op. It is one call of the library, as `number_at` of `words` is with another default, so one
// function for both would be no plainer.
pub fn op_at(ops: &[u32], i: usize) -> u32
    ensures { result ≡ op_at ops.now i }
{
    ops.get(i).copied().unwrap_or(NO_OP)
}

// The op at a position is of kind k, any number: `Kind` names but some. What stands past the end is of a kind that no op has.
pub fn is_kind(ops: &[u32], i: usize, k: u32) -> bool
    ensures { result ≡ eqb (kind (op_at ops.now i)) k }
{
    op_at(ops, i) / fields::KIND_UNIT == k
}

// A word of kind k, any number, whose field a is `a`.
pub fn is_of(w: u32, k: u32, a: u32) -> bool
    ensures { result ≡ (eqb (kind w) k && eqb (field_a w) a) }
{
    (w / fields::KIND_UNIT == k) & (w % fields::B_UNIT == a)
}

// A word of kind k whose field a is the slot.
pub(crate) fn has_slot(w: u32, k: Kind, slot: u32) -> bool
    ensures { result ≡ (eqb (kind w) (kind_number k) && eqb (field_a w) slot) }
{
    is_of(w, k as u32, slot)
}

// None of the n ops from i on sets v or e. The pass is not cut short, so that the machine can take several ops at a time.
pub fn never_sets(ops: &[u32], v: u32, e: u32, n: usize, i: usize) -> bool
    requires { i + n ≤ length ops.now }
    ensures { result ≡ (never_sets ops.now v n i && never_sets ops.now e n i) }
{
    let mut none = true;
    for &w in &ops[i..i + n] {
        none &= !(has_slot(w, Kind::SetLocal, v) | has_slot(w, Kind::SetLocal, e));
    }
    none
}

// So many ops are looked at together where a search goes far back.
const PIECE: usize = 64;

// The position to search below, once the pieces right below `before` that do not set the slot are passed over.
// That it lies in the list, here and below, is a bound of one number: a type for it would be made to be taken apart.
fn past_pieces(ops: &[u32], before: usize, slot: u32) -> usize
    requires { before ≤ length ops.now }
    ensures { (result ≤ before) × (last_set ops.now before slot ≡ last_set ops.now result slot) }
{
    let mut i = before;
    // The position goes along with the pieces: it is what is answered.
    for piece in ops[..before].rchunks_exact(PIECE) {
        if !never_sets(piece, slot, slot, PIECE, 0) {
            return i;
        }
        i -= PIECE;
    }
    i
}

// The last position below `before` whose op sets the slot. Most are near; with `far`, a search that has passed a piece op by op goes on by pieces.
pub fn last_set(ops: &[u32], before: usize, slot: u32, far: bool) -> Option<usize>
    requires { before ≤ length ops.now }
    ensures { found_of result ≡ last_set ops.now before slot }
{
    let mut i = before;
    // Document 01 names this form: a loop over falling positions that yields by `break`.
    loop {
        if far & (before - i == PIECE) {
            i = past_pieces(ops, i, slot);
        }
        if i == 0 {
            break None;
        }
        i -= 1;
        let w = ops[i];
        if has_slot(w, Kind::SetLocal, slot) {
            break Some(i);
        }
    }
}

// The length of the array in a slot, whose SetLocal is searched below `before`: a literal right before that SetLocal, or a copy of
// another slot, which is followed from there. The searches go op by op: what they would need for pieces would be on the stack for every copy.
pub fn trace_literal_array_length(ops: &[u32], before: usize, slot: u32) -> Option<i64>
    requires { before ≤ length ops.now }
    ensures { value_is result ≡ array_length ops.now before slot }
{
    // Document 01 names this form in each search: what was found or not is in a local, taken apart by `let .. else`.
    let found = last_set(ops, before, slot, false);
    let Some(at) = found else {
        return None;
    };
    if at == 0 {
        return None;
    }
    let w = ops[at - 1];
    if is(w, Kind::NewComposite) && w / fields::B_UNIT % fields::B_VALUES == 1 {
        return Some((w % fields::B_UNIT) as i64);
    }
    if is(w, Kind::GetLocal) {
        return trace_literal_array_length(ops, at - 1, w % fields::B_UNIT);
    }
    None
}

// The value of a slot, and the position of the SetLocal that gave it.
#[derive(Clone, Copy, Debug, PartialEq, Eq)]
pub struct Traced {
    pub value: i64,
    pub at: usize,
}

// What a slot is set to at `at`: right before that SetLocal stands Const of an integer, or GetLocal of an array and then Len.
fn value_at(constants: &[u32], ops: &[u32], at: usize) -> Option<i64>
    requires { at < length ops.now }
    ensures { value_is result ≡ value_at (constants_of constants.now) ops.now (found at) }
{
    if at == 0 {
        return None;
    }
    let w = ops[at - 1];
    if is(w, Kind::Const) {
        return constant_at(constants, (w % fields::B_UNIT) as usize);
    }
    if at == 1 || !is(w, Kind::Len) {
        return None;
    }
    let array = ops[at - 2];
    if !is(array, Kind::GetLocal) {
        return None;
    }
    trace_literal_array_length(ops, at - 2, array % fields::B_UNIT)
}

// The value of a slot below `before`, by its last SetLocal there.
pub fn trace_const_set_local(
    constants: &[u32],
    ops: &[u32],
    before: usize,
    slot: u32,
) -> Option<Traced>
    requires { before ≤ length ops.now }
    ensures value { traced_is result ≡ value_of (constants_of constants.now) ops.now before slot }
    ensures stop { StopsAt ops.now before slot result }
{
    // Document 01 names this form in each search: what was found or not is in a local, taken apart by `let .. else`.
    let found = last_set(ops, before, slot, true);
    let Some(at) = found else {
        return None;
    };
    let given = value_at(constants, ops, at);
    let Some(value) = given else {
        return None;
    };
    Some(Traced { value, at })
}
