// The figures of an op: a constant table by kind, and beside it the kinds whose figures depend on a or b.
ghost use Rattle.std.specs.Prelude.{◌≡◌, ◌+◌, ◌*◌, ◌<◌};
ghost use Rattle.rules.specs.Ops.{word, figures_of, trap_figures};

use crate::fields;
use crate::kinds::Kind;

// Here and below k is any kind of op, by its number: `Kind` names only those that the code asks for.
// The row of a kind for a = 0 and b = 0 is two hexadecimal digits: the cycles, and behind them 2 * growth + shrink. Line i has the rows of the kinds from
// 8 * i to 8 * i + 7, in this order; the last has those of 64 and 65. It is a `match` and no array: at each use, an array of constants is written to the stack.
fn row_of(k: u32) -> u32
    requires { k < 66 }
    ensures { result ≡ (figures_of (word k 0 0)).cycles * 16 + (figures_of (word k 0 0)).growth * 2 + (figures_of (word k 0 0)).shrink }
{
    let eight: u64 = match k / 8 {
        0 => 0x12_12_11_12_11_8a_88_7a,
        1 => 0x21_21_21_52_52_20_21_21,
        2 => 0x21_21_21_21_10_11_10_10,
        3 => 0x10_10_10_11_10_10_a2_20,
        4 => 0x10_12_52_30_21_20_20_20,
        5 => 0x32_32_20_20_20_20_20_20,
        6 => 0x21_22_10_22_22_22_24_22,
        7 => 0x22_12_10_21_21_21_21_21,
        _ => 0xa2_a2_00_00_00_00_00_00,
    };
    ((eight >> (8 * (7 - k % 8))) % 256) as u32
}

// The cycles of an op; 0 for a word of another kind.
pub fn cycles(w: u32) -> u32
    ensures { result ≡ (figures_of w).cycles }
{
    let k = w / fields::KIND_UNIT;
    if k > Kind::CallExternalNative as u32 {
        return 0;
    }
    if k == Kind::GetIndex as u32 {
        return if w / fields::B_UNIT % fields::B_VALUES == 1 {
            8
        } else {
            2
        };
    }
    if k == Kind::Trap as u32 {
        return if w % fields::B_UNIT == 8 { 6 } else { 1 };
    }
    row_of(k) / 16
}

// The slots that an op pushes before it runs.
pub fn stack_growth(w: u32) -> u32
    ensures { result ≡ (figures_of w).growth }
{
    let k = w / fields::KIND_UNIT;
    if k == Kind::GetIndex as u32 {
        return if w / fields::B_UNIT % fields::B_VALUES == 1 {
            5
        } else {
            0
        };
    }
    if k >= Kind::CallVerifiedNative as u32 {
        if k > Kind::CallExternalNative as u32 {
            return 0;
        }
        return if 128 <= w / fields::B_UNIT % fields::B_VALUES {
            2
        } else {
            1
        };
    }
    row_of(k) / 2 % 8
}

// The slots that are gone behind an op. Kinds 30, 58, 64 and 65 are tested together: test by test it would become a table of jumps.
pub fn stack_shrink(w: u32) -> u32
    ensures { result ≡ (figures_of w).shrink }
{
    let k = w / fields::KIND_UNIT;
    if k > Kind::CallExternalNative as u32 {
        return 0;
    }
    if k == Kind::Call as u32 || k == Kind::PopN as u32 || k >= Kind::CallVerifiedNative as u32 {
        let b = w / fields::B_UNIT % fields::B_VALUES;
        return if k >= Kind::CallVerifiedNative as u32 {
            b % 128
        } else {
            b
        };
    }
    if k == Kind::NewComposite as u32 {
        return w % fields::B_UNIT;
    }
    if k == Kind::GetIndex as u32 {
        return if w / fields::B_UNIT % fields::B_VALUES == 1 {
            0
        } else {
            1
        };
    }
    if k == Kind::Trap as u32 {
        return trap_shrink(w % fields::B_UNIT);
    }
    row_of(k) % 2
}

// Trap's shrink by its code.
fn trap_shrink(code: u32) -> u32
    ensures { result ≡ (trap_figures code).shrink }
{
    if code == 8 {
        5
    } else if code == 9 {
        1
    } else {
        0
    }
}
