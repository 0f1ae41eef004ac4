// The fields of a word, and whether it is an op.
ghost use Rattle.std.specs.Prelude.{◌≡◌, ◌≤◌, eqb};
ghost use Rattle.rules.specs.Ops.{kind, uses_a, greatest_b, is_op};
ghost use Rattle.words.specs.Kinds.{kind_number};

use crate::kinds::Kind;

// The units of kind (bits 24..31) and of b (bits 16..23), and how many values b has; a is what is below b's unit.
pub const KIND_UNIT: u32 = 16777216;

pub const B_UNIT: u32 = 65536;

pub const B_VALUES: u32 = 256;

// Whether a word is of a kind.
pub fn is(w: u32, k: Kind) -> bool
    ensures { result ≡ eqb (kind w) (kind_number k) }
{
    w / KIND_UNIT == k as u32
}

// The greatest b of an op kind. Here and below k is any number up to 65, which `Kind` need not name: it has the kinds that the code asks for.
fn greatest_b(k: u32) -> u32
    requires { k ≤ 65 }
    ensures { result ≡ greatest_b k }
{
    if k == Kind::Call as u32 || k == Kind::PopN as u32 || k >= Kind::CallVerifiedNative as u32 {
        return 255;
    }
    if k == Kind::NewComposite as u32 {
        return 3;
    }
    if k == Kind::GetIndex as u32 { 1 } else { 0 }
}

// Whether an op kind uses a. Bit k of the number, the lowest being bit 0, is 1 for the kinds 0 to 2, 21, 22, 24 to 27, 30, 34 and 50; 64 and 65 are beyond it.
fn uses_a(k: u32) -> bool
    requires { k ≤ 65 }
    ensures { result ≡ uses_a k }
{
    if k >= Kind::CallVerifiedNative as u32 {
        return true;
    }
    (0x0004_0004_4f60_0007u64 >> k) % 2 == 1
}

// An op of the table, its kind any number, with no field that its kind does not use. Most ops have b = 0 and a = 0.
pub fn is_op(w: u32) -> bool
    ensures { result ≡ is_op w }
{
    let k = w / KIND_UNIT;
    if k > Kind::CallExternalNative as u32 {
        return false;
    }
    if w % KIND_UNIT == 0 {
        return true;
    }
    if greatest_b(k) < w / B_UNIT % B_VALUES {
        return false;
    }
    w % B_UNIT == 0 || uses_a(k)
}
