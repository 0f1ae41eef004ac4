// How many words a lent module takes, if all of it fits.
ghost use Rattle.std.specs.Prelude.{◌≡◌, ◌*◌, length};
ghost use Rattle.rules.specs.Writing.{held};
ghost use Rattle.words.specs.Found.{found_of};
ghost use Rattle.writer.specs.Size.{one_size, size_from};
ghost use Rattle.writer.specs.Lent.{own_of};

use crate::fits::{constants_fit, ops_fit, trimmed};
use crate::lent::{CONSTANT_WORDS, EXTRA_WORDS, Head, LENT_CHUNK, Lent, split};
use words::fields;
use words::kinds::Mode;
use words::limits::WORDS;

// The words of a chunk whose own these lists are, if they fit.
fn own_size(h: Head, own: Lent<'_>) -> Option<usize>
    requires { (length own.constants.now ≡ 3 * h.constants) × (length own.ops.now ≡ 3 * h.ops) }
    ensures { found_of result ≡ one_size (own_of h own.entry) }
{
    if fields::B_UNIT <= h.locals {
        return None;
    }
    if h.mode > Mode::Stream as u32 {
        return None;
    }
    if !constants_fit(own.constants) || !ops_fit(own.ops) {
        return None;
    }
    let n = trimmed(own.extras).len();
    if (h.ops as usize) < n {
        return None;
    }
    Some(1 + CONSTANT_WORDS * h.constants as usize + h.ops as usize + EXTRA_WORDS * n)
}

// The words of a module with its head, if its chunks fit, nothing is left over, and they are no more than the limit.
pub fn module_size(chunks: &[u32], lent: Lent<'_>) -> Option<usize>
    ensures { found_of result ≡ size_from 1 (held chunks.now lent.entry.constants.now lent.entry.ops.now lent.entry.extras.now) }
{
    let (fives, over) = chunks.as_chunks::<LENT_CHUNK>();
    let mut total = 1;
    let mut rest = lent;
    for &five in fives {
        let h = Head::from(five);
        let (own, behind) = split(rest, h)?;
        total += own_size(h, own)?;
        if WORDS < total {
            return None;
        }
        rest = behind;
    }
    if over.is_empty() & rest.constants.is_empty() & rest.ops.is_empty() & rest.extras.is_empty() {
        return Some(total);
    }
    None
}
