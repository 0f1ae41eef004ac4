// The cycle walk of one chunk: an entry point for any words and chunk number. And the one place where a figure is cut and marked.
ghost use Rattle.std.specs.Prelude.{◌≡◌};
ghost use Rattle.rules.specs.Cycles.{cycles_of, chunk_cycles};
ghost use Rattle.rules.specs.Sheet.{cycles_outcome};
ghost use Rattle.words.specs.Refusals.{result_of, outcome_of};
ghost use Rattle.words.specs.Chunks.{chunk_of};
ghost use Rattle.rows.specs.Opens.{RowFits};
ghost use Rattle.cycles.specs.Answers.{cost_of};
ghost use Rattle.cycles.specs.Entry.{figure_of, range_cycles};

use crate::region::{Cost, CycleWalk};
use rows::check::chunk_row;
use rows::range::Range;
use words::chunk::Chunk;
use words::limits::{CYCLE_CAP, LEVELS};
use words::lookup::chunk_at;
use words::refusals::{Fault, Refused};

// The cap, wide.
const CAP: u64 = CYCLE_CAP as u64;

// The figure of a walk: the cycles up to 4,294,967,295, whether the row ends, and whether the uncapped figure is greater.
#[derive(Clone, Copy, Debug, PartialEq, Eq)]
pub struct Figure {
    pub cycles: u32,
    pub ends: bool,
    pub cut: bool,
}

// The figure of a cost: cut once, and marked if it was greater.
impl From<Cost> for Figure {
    ghost from_gives = { λ cost figure. figure_of figure ≡ cycles_of (cost_of cost) };

    fn from(cost: Cost) -> Figure {
        let cut = CAP < cost.cycles;
        let cycles = if cut { CYCLE_CAP } else { cost.cycles as u32 };
        Figure {
            cycles,
            ends: cost.ends,
            cut,
        }
    }
}

// The walk of a row, with 256 levels of nesting, over its callees' whole figures: its figure, or refusal 7, 8, 9 or 16.
pub fn wcet_region(chunk: &Chunk<'_>, wholes: &[u32], row: Range) -> Result<Figure, Fault>
    requires { RowFits chunk.now.ops.now row.from row.to }
    ensures { result_of figure_of result ≡ range_cycles (chunk_of chunk.now) wholes.now row.from row.to }
{
    let walk = CycleWalk {
        chunk: *chunk,
        wholes,
    };
    let cost = walk.wcet_region_at(row.from, row.to, LEVELS, None)?;
    Ok(Figure::from(cost))
}

// The cycle walk of a chunk: 3, 4, 5, 6, 15, and 7, 8, 9, 16 as the walk meets them. No callee is charged.
fn chunk_cycles(chunk: &Chunk<'_>) -> Result<Figure, Fault>
    ensures { result_of figure_of result ≡ chunk_cycles (chunk_of chunk.now) }
{
    let row = chunk_row(chunk)?;
    wcet_region(chunk, &[], row)
}

// The cycle walk of chunk c: its figure, or refusal 1, 2, 12, 3 to 9, 15 or 16.
pub fn cycle_walk(words: &[u32], c: usize) -> Result<Figure, Refused>
    ensures { outcome_of figure_of result ≡ cycles_outcome words.now c }
{
    let chunk = chunk_at(words, c)?;
    chunk_cycles(&chunk).map_err(|fault| fault.in_chunk(c))
}
