// What an editor lends: the layout of the lists, and what a chunk takes of them.
ghost use Rattle.std.specs.Prelude.{◌≡◌, ◌↔◌, IsSome, IfSome};
ghost use Rattle.writer.specs.Lent.{Splits, HasOwn};

// The numbers of a chunk (locals, type, and how many constants, ops and extras are its own), of a constant and of an op. An extra is one number.
pub const LENT_CHUNK: usize = 5;

pub const LENT_CONSTANT: usize = 3;

pub const LENT_OP: usize = 3;

// The words of a constant and of an extra. A chunk's head and an op are one word.
pub const CONSTANT_WORDS: usize = 4;

pub const EXTRA_WORDS: usize = 2;

// The five numbers of a lent chunk, any numbers: locals, type (`mode`), and how many constants, ops and extras are its own.
#[derive(Clone, Copy, Debug, PartialEq, Eq)]
pub struct Head {
    pub locals: u32,
    pub mode: u32,
    pub constants: u32,
    pub ops: u32,
    pub extras: u32,
}

// The numbers of a chunk by their names, as they stand in the list.
impl From<[u32; LENT_CHUNK]> for Head {
    ghost use Rattle.writer.specs.Lent.{head_of};

    ghost from_gives = { λ five head. head ≡ head_of five };

    fn from(five: [u32; LENT_CHUNK]) -> Head {
        let [locals, mode, constants, ops, extras] = five;
        Head {
            locals,
            mode,
            constants,
            ops,
            extras,
        }
    }
}

// The lists behind the one of chunks: of a chunk's own, or from a chunk on.
#[derive(Clone, Copy)]
pub struct Lent<'a> {
    pub constants: &'a [u32],
    pub ops: &'a [u32],
    pub extras: &'a [u32],
}

// A chunk's own at the fronts of the lists and what stands behind them, if the lists have as many.
pub fn split<'a>(lent: Lent<'a>, h: Head) -> Option<(Lent<'a>, Lent<'a>)>
    ensures enough { IsSome result ↔ HasOwn h lent.entry.constants.now lent.entry.ops.now lent.entry.extras.now }
    ensures parts { IfSome result (λ parts. Splits h lent.entry parts.0 parts.1) }
{
    let (constants, more_constants) = lent
        .constants
        .split_at_checked(LENT_CONSTANT * h.constants as usize)?;
    let (ops, more_ops) = lent.ops.split_at_checked(LENT_OP * h.ops as usize)?;
    let (extras, more_extras) = lent.extras.split_at_checked(h.extras as usize)?;
    let own = Lent {
        constants,
        ops,
        extras,
    };
    let behind = Lent {
        constants: more_constants,
        ops: more_ops,
        extras: more_extras,
    };
    Some((own, behind))
}
