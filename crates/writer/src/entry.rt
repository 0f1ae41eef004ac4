// The words of a lent module: an entry point for any lists and any lent tray.
ghost use Rattle.std.specs.Prelude.{◌≡◌, length};
ghost use Rattle.rules.specs.Writing.{write_outcome, how_many, write_tray};
ghost use Rattle.words.specs.Refusals.{outcome_of};

use crate::lent::{LENT_CHUNK, Lent};
use crate::put::put_chunks;
use crate::size::module_size;
use words::fields;
use words::kinds::Kind;
use words::limits::CHUNKS;
use words::refusals::{Refusal, Refused};

// The words of the module that the lists hold, to the front of the tray; extras of 0 at a chunk's end are dropped. The answer is how many words they are, or refusal
// 14 or 13. One pass finds whether all fits and how many words there are, a second writes them. What lies beyond them is left, and a refusal writes nothing.
pub fn write_module(
    chunks: &[u32],
    constants: &[u32],
    ops: &[u32],
    extras: &[u32],
    tray: &mut [u32],
) -> Result<u32, Refused>
    ensures answer { outcome_of (λ n. n) result ≡ how_many (write_outcome chunks.now constants.now ops.now extras.now (length tray.old)) }
    ensures written { tray.new ≡ write_tray (write_outcome chunks.now constants.now ops.now extras.now (length tray.old)) tray.old }
{
    let n = chunks.len() / LENT_CHUNK;
    if n == 0 || CHUNKS < n {
        return Err(Refusal::UnfitPart.at(0).in_chunk(0));
    }
    let lent = Lent {
        constants,
        ops,
        extras,
    };
    let size = module_size(chunks, lent);
    let Some(count) = size else {
        return Err(Refusal::UnfitPart.at(0).in_chunk(0));
    };
    if tray.len() < count {
        return Err(Refusal::ShortTray.at(0).in_chunk(0));
    }
    tray[0] = Kind::Module as u32 * fields::KIND_UNIT + n as u32;
    put_chunks(chunks, lent, tray);
    Ok(count as u32)
}
