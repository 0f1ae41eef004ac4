// The parts of a chunk: where they stand, and each as a part of the caller's list.
ghost use Rattle.std.specs.Prelude.{◌≡◌, ◌+◌, ◌-◌, ◌≤◌, ◌<◌, length, drop};
ghost use Rattle.words.specs.Parts.{run_of, parts_from, parts_at, part_of};

use crate::fields;
use crate::kinds::Kind;

// A chunk's locals and type (`mode`: 0 Func, 1 Reentrant, 2 Stream), and where its constants, ops and extras begin and the chunk ends.
// The type stays the number that stands in the word, here and in `Chunk`: one question is asked of it, whether it is that of `Mode::Stream`.
#[derive(Clone, Copy, Debug, PartialEq, Eq)]
pub struct Parts {
    pub locals: u32,
    pub mode: u32,
    pub constants: usize,
    pub ops: usize,
    pub extras: usize,
    pub end: usize,
}

// Behind the words from `from` on whose kinds are from `low` to `high`, numbers of kinds, since all between them count.
// That the place lies in the list is a bound of one number: a type for it would be made to be taken apart.
fn behind_run(words: &[u32], from: usize, low: u32, high: u32) -> usize
    requires { from ≤ length words.now }
    ensures { result ≡ from + length (run_of low high (drop from words.now)) }
{
    let run = words[from..].iter().take_while(|&&w| {
        let kind = w / fields::KIND_UNIT;
        low <= kind && kind <= high
    });
    from + run.count()
}

// The parts of the chunk whose head stands at `at`.
pub fn parts_at(words: &[u32], at: usize) -> Parts
    requires { at < length words.now }
    ensures { result ≡ parts_at words.now at }
{
    let ops = behind_run(words, at + 1, Kind::Integer as u32, Kind::Other as u32);
    let extras = behind_run(
        words,
        ops,
        Kind::Const as u32,
        Kind::CallExternalNative as u32,
    );
    let end = behind_run(words, extras, Kind::Extra as u32, Kind::Extra as u32);
    parts_from(words, at, ops, extras, end)
}

// The parts of a chunk whose places are known: its head gives the rest.
pub fn parts_from(words: &[u32], at: usize, ops: usize, extras: usize, end: usize) -> Parts
    requires { at < length words.now }
    ensures { result ≡ parts_from words.now at ops extras end }
{
    let head = words[at];
    Parts {
        locals: head % fields::B_UNIT,
        mode: head / fields::B_UNIT % fields::B_VALUES,
        constants: at + 1,
        ops,
        extras,
        end,
    }
}

// The constants of a chunk, four words each. Document 01 names the form of this function and of the next two: each returns a part of the lent slice.
pub fn constants_of(words: &[u32], p: Parts) -> &[u32]
    requires { (p.constants ≤ p.ops) × (p.ops ≤ length words.now) }
    ensures { result.now ≡ part_of p.constants p.ops words.now }
{
    let from = p.constants;
    let to = p.ops;
    &words[from..to]
}

// The ops of a chunk, one word each.
pub fn ops_of(words: &[u32], p: Parts) -> &[u32]
    requires { (p.ops ≤ p.extras) × (p.extras ≤ length words.now) }
    ensures { result.now ≡ part_of p.ops p.extras words.now }
{
    let from = p.ops;
    let to = p.extras;
    &words[from..to]
}

// The extras of a chunk, two words each.
pub fn extras_of(words: &[u32], p: Parts) -> &[u32]
    requires { (p.extras ≤ p.end) × (p.end ≤ length words.now) }
    ensures { result.now ≡ part_of p.extras p.end words.now }
{
    let from = p.extras;
    let to = p.end;
    &words[from..to]
}
