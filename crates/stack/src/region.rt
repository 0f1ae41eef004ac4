// The operand-stack walk of a row: op after op, with the bodies of its blocks one level deeper.
ghost use Rattle.std.specs.Prelude.{◌≡◌, ℕ, suc, ◌*◌, ◌<◌};
ghost use Rattle.words.specs.Chunks.{chunk_of};
ghost use Rattle.rows.specs.Opens.{RowFits, StepFits, IfFits, ElseFits, LoopFits};
ghost use Rattle.stack.specs.Levels.{delta_of, height_of, Small};
ghost use Rattle.stack.specs.Steps.{PartFits, RegionMeans, PartMeans, StepMeans, IfMeans, ElseMeans, LoopMeans};
ghost use Rattle.stack.specs.Steps.{ended_at, goes_on, joined, passed_once};

use crate::height::{Height, greater_delta, lift};
use crate::level::{Level, level_over, marked, op_effect, raised};
use count::bound::extract_loop_iteration_bound;
use rows::block::{Block, block_at};
use words::chunk::Chunk;
use words::refusals::{Fault, Refusal};
use words::units::Slots;

// How a row goes on behind an op or a block: at a position with a level, or it ends.
#[derive(Clone, Copy, Debug, PartialEq, Eq)]
pub enum Step {
    Goes(usize, Level),
    Ends(Height),
}

// A row that ends: no way leads to its end.
fn ended(peak: Slots, broken: bool) -> Step
    ensures { result ≡ ended_at peak.0 broken }
{
    Step::Ends(Height {
        peak,
        delta: None,
        broken,
    })
}

// Behind an EndIf: the row goes on at the delta of its arms, or ends where they have none. That positions are below 65,536, here and below, is a bound of one
// number: a type for it would be made to be taken apart.
fn goes_on(close: usize, peak: Slots, delta: Option<i64>, broken: bool) -> Step
    requires { close < 65536 }
    ensures { result ≡ goes_on close peak.0 (delta_of delta) broken }
{
    let Some(offset) = delta else {
        return ended(peak, broken);
    };
    Step::Goes(
        close + 1,
        Level {
            offset,
            peak,
            broken,
        },
    )
}

// Behind a Loop whose body never reaches EndLoop at e: a break leads on; without one the row ends.
fn passed_once(e: usize, level: Level, met: bool) -> Step
    requires { e < 65536 }
    ensures { result ≡ passed_once e level met }
{
    if met {
        return Step::Goes(e + 1, level);
    }
    ended(level.peak, level.broken)
}

// Both arms walked: the greater peak of all, and the greater delta of those that go on.
fn join_arms(f: usize, behind: Level, arm: Height, other: Height) -> Step
    requires { f < 65536 }
    ensures { result ≡ joined f behind (height_of arm) (height_of other) }
{
    goes_on(
        f,
        behind.peak.max(arm.peak).max(other.peak),
        greater_delta(arm.delta, other.delta),
        other.broken,
    )
}

// The walk of a chunk over the stack bytes of its callees.
#[derive(Clone, Copy)]
pub struct StackWalk<'a> {
    pub chunk: Chunk<'a>,
    pub callees: &'a [u32],
}

// That the positions are a row stands in each contract: they are others at each call, so a type for them would be made only to be taken apart.
impl StackWalk<'_> {
    // The row from `from` up to `to`, with `left` levels of nesting left inside it.
    #[cycle(wcmu)]
    pub fn wcmu_region_at(
        &self,
        from: usize,
        to: usize,
        left: u16,
        broken: bool,
    ) -> Result<Height, Fault>
        requires { RowFits self.now.chunk.ops.now from to }
        ensures { RegionMeans (chunk_of self.now.chunk) self.now.callees.now from to left broken result }
    {
        let mut i = from;
        let mut level = Level {
            offset: 0,
            peak: Slots(0),
            broken,
        };
        // A step says where the row goes on, behind a whole block at once, so no `for` counts the position.
        while i < to {
            let step = self.wcmu_step(i, left, level)?;
            match step {
                Step::Goes(next, behind) => {
                    i = next;
                    level = behind;
                }
                Step::Ends(height) => return Ok(height),
            }
        }
        Ok(Height::from(level))
    }

    // The op at i, or the block that it opens: a `match`, since each case has positions of its own.
    #[cycle(wcmu)]
    fn wcmu_step(&self, i: usize, left: u16, level: Level) -> Result<Step, Fault>
        requires { (Small level (65536 * i)) × ((to : ℕ) × StepFits self.now.chunk.ops.now i to) }
        ensures { (to : ℕ) → StepFits self.now.chunk.ops.now i to → StepMeans (chunk_of self.now.chunk) self.now.callees.now i to left level result }
    {
        let behind = level_over(level, op_effect(self.chunk.ops, self.callees, i));
        let block = block_at(self.chunk.ops, i);
        let next = i + 1;
        match block {
            Block::Plain => Ok(Step::Goes(next, behind)),
            Block::Ends => Ok(ended(behind.peak, behind.broken)),
            Block::Break => Ok(ended(behind.peak, true)),
            Block::BreakIf => Ok(Step::Goes(next, marked(behind, true))),
            Block::If(t) => self.wcmu_if(i, t, left, behind),
            Block::IfElse(e, f) => self.wcmu_else(i, e, f, left, behind),
            Block::Loop(e) => self.wcmu_loop(i, e, left, behind),
            Block::Call(_) => Ok(Step::Goes(next, behind)),
        }
    }

    // A part of a row, one level deeper, begun at a level: its peak lifted by the offset, or 0 where that is below, its delta moved by it.
    #[cycle(wcmu)]
    fn wcmu_subregion(
        &self,
        from: usize,
        to: usize,
        left: u16,
        level: Level,
    ) -> Result<Height, Fault>
        requires { PartFits self.now.chunk.ops.now from to level }
        ensures { PartMeans (chunk_of self.now.chunk) self.now.callees.now from to left level result }
    {
        if left == 0 {
            return Err(Refusal::TooDeep.at(0));
        }
        let height = self.wcmu_region_at(from, to, left - 1, level.broken)?;
        Ok(lift(level, height))
    }

    // Behind an If at i with EndIf at t: the greater of the arm and the level before it.
    #[cycle(wcmu)]
    fn wcmu_if(&self, i: usize, t: usize, left: u16, behind: Level) -> Result<Step, Fault>
        requires { (Small behind (65536 * suc i)) × ((to : ℕ) × IfFits self.now.chunk.ops.now i t to) }
        ensures { (to : ℕ) → IfFits self.now.chunk.ops.now i t to → IfMeans (chunk_of self.now.chunk) self.now.callees.now i t to left behind result }
    {
        let arm = self.wcmu_subregion(i + 1, t, left, behind)?;
        Ok(join_arms(t, behind, Height::from(behind), arm))
    }

    // Behind an If at i with Else at e and EndIf at f: the greater of both arms.
    #[cycle(wcmu)]
    fn wcmu_else(
        &self,
        i: usize,
        e: usize,
        f: usize,
        left: u16,
        behind: Level,
    ) -> Result<Step, Fault>
        requires { (Small behind (65536 * suc i)) × ((to : ℕ) × ElseFits self.now.chunk.ops.now i e f to) }
        ensures { (to : ℕ) → ElseFits self.now.chunk.ops.now i e f to → ElseMeans (chunk_of self.now.chunk) self.now.callees.now i e f to left behind result }
    {
        let arm = self.wcmu_subregion(i + 1, e, left, behind)?;
        let again = marked(behind, arm.broken);
        let other = self.wcmu_subregion(e + 1, f, left, again)?;
        Ok(join_arms(f, behind, arm, other))
    }

    // Behind a Loop at i with EndLoop at e: the body's peak counts, and the level behind is that before it.
    #[cycle(wcmu)]
    fn wcmu_loop(&self, i: usize, e: usize, left: u16, behind: Level) -> Result<Step, Fault>
        requires { (Small behind (65536 * suc i)) × ((to : ℕ) × LoopFits self.now.chunk.ops.now i e to) }
        ensures { (to : ℕ) → LoopFits self.now.chunk.ops.now i e to → LoopMeans (chunk_of self.now.chunk) self.now.callees.now i e to left behind result }
    {
        let unbroken = marked(behind, false);
        let body = self.wcmu_subregion(i + 1, e, left, unbroken)?;
        let after = raised(behind, body.peak);
        if body.delta.is_none() {
            return Ok(passed_once(e, after, body.broken));
        }
        let bound = extract_loop_iteration_bound(&self.chunk, i);
        if bound.is_none() {
            return Err(Refusal::NoCount.at(i));
        }
        Ok(Step::Goes(e + 1, after))
    }
}
