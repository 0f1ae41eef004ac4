// A chunk's cycles, and the same with its callees.
ghost use Rattle.std.specs.Prelude.{◌≡◌};
ghost use Rattle.words.specs.Chunks.{chunk_of};
ghost use Rattle.words.specs.Refusals.{result_of};
ghost use Rattle.rows.specs.Opens.{RowFits};
ghost use Rattle.lines.specs.Costs.{calls_none, both_costs};

use cycles::entry::wcet_region;
use rows::range::Range;
use words::chunk::Chunk;
use words::fields::is;
use words::kinds::Kind;
use words::refusals::Fault;

// A chunk's cycles, whether they are cut, and the cycles with its callees.
#[derive(Clone, Copy, Debug, PartialEq, Eq)]
pub struct Both {
    pub cycles: u32,
    pub cut: bool,
    pub whole: u32,
}

// None of the ops is a Call. The pass is not cut short, so that the machine can take several ops at a time.
fn calls_none(ops: &[u32]) -> bool
    ensures { result ≡ calls_none ops.now }
{
    let mut none = true;
    for &w in ops {
        let is_call = is(w, Kind::Call);
        none &= !is_call;
    }
    none
}

// The cycle walk of a row without its callees, and then over their whole figures, or refusal 7, 8, 9 or 16. Where no op is a Call, the second walk is left
// out: it would give the same.
pub fn chunk_costs(chunk: &Chunk<'_>, wholes: &[u32], row: Range) -> Result<Both, Fault>
    requires { RowFits chunk.now.ops.now row.from row.to }
    ensures { result_of (λ b. b) result ≡ both_costs (chunk_of chunk.now) wholes.now row.from row.to }
{
    let own = wcet_region(chunk, &[], row)?;
    let mut both = Both {
        cycles: own.cycles,
        cut: own.cut,
        whole: own.cycles,
    };
    if !calls_none(chunk.ops) {
        both.whole = wcet_region(chunk, wholes, row)?.cycles;
    }
    Ok(both)
}
