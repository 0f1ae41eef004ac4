// A chunk of filed words, as the walks take it.
ghost use Rattle.std.specs.Prelude.{◌≡◌, ◌≤◌, length};
ghost use Rattle.rules.specs.Limits.{most_words};
ghost use Rattle.words.specs.Parts.{part_of, PartsFit};

use crate::parts::{Parts, constants_of, extras_of, ops_of};

// A chunk of filed words: its locals and type, and its constants, ops and extras as parts of the caller's list.
#[derive(Clone, Copy)]
pub struct Chunk<'a> {
    pub locals: u16,
    pub mode: u32,
    pub constants: &'a [u32],
    pub ops: &'a [u32],
    pub extras: &'a [u32],
    ghost short: { length ops.now ≤ most_words },
}

// The chunk with these parts.
pub fn chunk_with(words: &[u32], p: Parts) -> Chunk<'_>
    requires { PartsFit words.now p }
    ensures fields { (result.locals ≡ p.locals) × (result.mode ≡ p.mode) }
    ensures constants { result.constants.now ≡ part_of p.constants p.ops words.now }
    ensures ops { result.ops.now ≡ part_of p.ops p.extras words.now }
    ensures extras { result.extras.now ≡ part_of p.extras p.end words.now }
{
    Chunk {
        locals: p.locals as u16,
        mode: p.mode,
        constants: constants_of(words, p),
        ops: ops_of(words, p),
        extras: extras_of(words, p),
    }
}
