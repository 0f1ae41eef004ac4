// Yield coverage of one chunk: an entry point for any words, chunk number and lent list.
ghost use Rattle.std.specs.Prelude.{◌≡◌};
ghost use Rattle.rules.specs.Ops.{op_at};
ghost use Rattle.rules.specs.Yields.{chunk_coverage, coverage_of, yield_outcome};
ghost use Rattle.rows.specs.Opens.{RowFits};
ghost use Rattle.rows.specs.Tree.{tree_of};
ghost use Rattle.words.specs.Chunks.{chunk_of};
ghost use Rattle.words.specs.Refusals.{result_of, outcome_of};
ghost use Rattle.yields.specs.Answers.{reached_of};
ghost use Rattle.yields.specs.Entry.{coverage_is};

use crate::region::{Cover, CoverWalk};
use rows::check::chunk_row;
use rows::range::Range;
use words::chunk::Chunk;
use words::limits::LEVELS;
use words::lookup::chunk_at;
use words::refusals::{Fault, Refused};

// Does every way through give up its turn: yes; no; or no way reaches the end. Past 256 blocks in one another it is the Rust's answer, and no more.
#[derive(Clone, Copy, Debug, PartialEq, Eq)]
pub enum Coverage {
    Yes,
    No,
    Never,
}

// No break leads out of a range, so of a walk the flag alone is told.
impl From<Cover> for Coverage {
    ghost from_gives = { λ cover coverage. coverage_is coverage ≡ reached_of cover.coverage };

    fn from(cover: Cover) -> Coverage {
        match cover.coverage {
            Some(true) => Coverage::Yes,
            Some(false) => Coverage::No,
            None => Coverage::Never,
        }
    }
}

// The walk of a row, with 256 levels of nesting, from a start that hasn't yielded.
pub fn analyze_yield_coverage(chunk: &Chunk<'_>, lent: &[u32], row: Range) -> Coverage
    requires { RowFits chunk.now.ops.now row.from row.to }
    ensures { coverage_is result ≡ coverage_of (chunk_of chunk.now) lent.now (tree_of (op_at chunk.now.ops.now) row.from row.to) }
{
    let walk = CoverWalk {
        ops: chunk.ops,
        lent,
    };
    Coverage::from(walk.analyze_yield_coverage_at(row.from, row.to, LEVELS, false, None))
}

// The answer of a chunk: 3, 4, 5, 6, 15, and then no refusal.
fn chunk_coverage(chunk: &Chunk<'_>, lent: &[u32]) -> Result<Coverage, Fault>
    ensures { result_of coverage_is result ≡ chunk_coverage (chunk_of chunk.now) lent.now }
{
    let row = chunk_row(chunk)?;
    Ok(analyze_yield_coverage(chunk, lent, row))
}

// The answer of chunk c over a list by chunk index, 1 for a callee that always yields; or refusal 1, 2, 12, 3, 4, 5, 6 or 15.
pub fn yield_coverage(words: &[u32], c: usize, lent: &[u32]) -> Result<Coverage, Refused>
    ensures { outcome_of coverage_is result ≡ yield_outcome words.now c lent.now }
{
    let chunk = chunk_at(words, c)?;
    chunk_coverage(&chunk, lent).map_err(|fault| fault.in_chunk(c))
}
