// The cycle walk of a row: op after op, with the bodies of its blocks one level deeper.
ghost use Rattle.std.specs.Prelude.{◌≡◌, ℕ, ◌≤◌, ◌<◌, length};
ghost use Rattle.rules.specs.Ops.{op_at};
ghost use Rattle.rules.specs.Placed.{Begins};
ghost use Rattle.words.specs.Refusals.{result_of};
ghost use Rattle.words.specs.Chunks.{chunk_of};
ghost use Rattle.rows.specs.Opens.{RowFits, StepFits, IfFits, ElseFits, LoopFits};
ghost use Rattle.cycles.specs.Answers.{breaks_of, cost_of, part_cost, region_cost};
ghost use Rattle.cycles.specs.Steps.{Inside, StepMeans, IfMeans, ElseMeans, LoopMeans, joined, all_passes_at, one_pass_at};

use crate::charge::op_wcet_cycles;
use count::sure::sure_passes;
use rows::block::{Block, block_at};
use words::chunk::Chunk;
use words::refusals::{Fault, Refusal};
use words::values::number_at;

// What the walk of a row gives: its cycles up to what 64 bits hold, whether it ends, and the costliest of the breaks out of the loop around it, if there is
// one. Nothing uncapped can be held; but a walk that stops at any cap above 4,294,967,295 tells the figure up to that number and whether the uncapped one is
// greater.
#[derive(Clone, Copy, Debug, PartialEq, Eq)]
pub struct Cost {
    pub cycles: u64,
    pub ends: bool,
    pub breaks: Option<u64>,
}

// How a row goes on behind an op or a block: with a cost and breaks at a position, or it ends with them. The two go side by side and not in a struct: at most
// places only one of them changes.
#[derive(Clone, Copy, Debug, PartialEq, Eq)]
pub enum Step {
    Goes(u64, Option<u64>, usize),
    Ends(u64, Option<u64>),
}

// The walk of a chunk over its callees' whole figures: a Call is charged the one that the list has for its callee.
#[derive(Clone, Copy)]
pub struct CycleWalk<'a> {
    pub chunk: Chunk<'a>,
    pub wholes: &'a [u32],
}

// That the positions are a row stands in each contract: they are others at each call, so a type for them would be made only to be taken apart.
impl CycleWalk<'_> {
    // The row from `from` up to `to`, with `left` levels of nesting left inside it and the breaks met so far.
    #[cycle(wcet)]
    pub fn wcet_region_at(
        &self,
        from: usize,
        to: usize,
        left: u16,
        breaks: Option<u64>,
    ) -> Result<Cost, Fault>
        requires { RowFits self.now.chunk.ops.now from to }
        ensures { (start : ℕ) → Begins (op_at self.now.chunk.ops.now) start from → result_of cost_of result ≡ region_cost (chunk_of self.now.chunk) self.now.wholes.now start from to left 0 (breaks_of breaks) }
    {
        let mut i = from;
        let mut cycles: u64 = 0;
        let mut breaks = breaks;
        // A step says where the row goes on, behind a whole block at once, so no `for` counts the position.
        while i < to {
            let step = self.wcet_step(from, i, left, cycles, breaks)?;
            match step {
                Step::Goes(cost, noted, next) => {
                    i = next;
                    cycles = cost;
                    breaks = noted;
                }
                Step::Ends(cost, noted) => {
                    return Ok(Cost {
                        cycles: cost,
                        ends: true,
                        breaks: noted,
                    });
                }
            }
        }
        Ok(Cost {
            cycles,
            ends: false,
            breaks,
        })
    }

    // The op at i, or the block that it opens, in the row that begins at `from`: a `match`, since each case has positions of its own.
    #[cycle(wcet)]
    fn wcet_step(
        &self,
        from: usize,
        i: usize,
        left: u16,
        cycles: u64,
        breaks: Option<u64>,
    ) -> Result<Step, Fault>
        requires { (to : ℕ) × StepFits self.now.chunk.ops.now i to }
        ensures { (start to : ℕ) → Inside (op_at self.now.chunk.ops.now) start from i → StepFits self.now.chunk.ops.now i to → StepMeans (chunk_of self.now.chunk) self.now.wholes.now start i to left cycles (breaks_of breaks) result }
    {
        let own = op_wcet_cycles(self.chunk.ops, self.chunk.extras, i)?;
        let cost = cycles.saturating_add(own);
        let block = block_at(self.chunk.ops, i);
        let next = i + 1;
        match block {
            Block::Plain => Ok(Step::Goes(cost, breaks, next)),
            Block::Ends => Ok(Step::Ends(cost, breaks)),
            Block::Break => Ok(Step::Ends(cost, breaks.max(Some(cost)))),
            Block::BreakIf => Ok(Step::Goes(cost, breaks.max(Some(cost)), next)),
            Block::If(t) => self.wcet_if(i, t, left, cost, breaks),
            Block::IfElse(e, f) => self.wcet_else(i, e, f, left, cost, breaks),
            Block::Loop(e) => self.wcet_loop(from, i, e, left, cost, breaks),
            Block::Call(k) => {
                let whole = number_at(self.wholes, k) as u64;
                Ok(Step::Goes(cost.saturating_add(whole), breaks, next))
            }
        }
    }

    // A body, one level deeper.
    #[cycle(wcet)]
    fn wcet_part(
        &self,
        from: usize,
        to: usize,
        left: u16,
        breaks: Option<u64>,
    ) -> Result<Cost, Fault>
        requires { RowFits self.now.chunk.ops.now from to }
        ensures { (start : ℕ) → Begins (op_at self.now.chunk.ops.now) start from → result_of cost_of result ≡ part_cost (chunk_of self.now.chunk) self.now.wholes.now start from to left (breaks_of breaks) }
    {
        if left == 0 {
            return Err(Refusal::TooDeep.at(0));
        }
        self.wcet_region_at(from, to, left - 1, breaks)
    }

    // Behind an If at i, charged already, with EndIf at t: the arm, and EndIf.
    #[cycle(wcet)]
    fn wcet_if(
        &self,
        i: usize,
        t: usize,
        left: u16,
        cost: u64,
        breaks: Option<u64>,
    ) -> Result<Step, Fault>
        requires { (to : ℕ) × IfFits self.now.chunk.ops.now i t to }
        ensures { (start to : ℕ) → start ≤ i → IfFits self.now.chunk.ops.now i t to → IfMeans (chunk_of self.now.chunk) self.now.wholes.now start i t to left cost (breaks_of breaks) result }
    {
        let arm = self.wcet_part(i + 1, t, left, breaks)?;
        let close = op_wcet_cycles(self.chunk.ops, self.chunk.extras, t)?;
        let total = cost.saturating_add(arm.cycles).saturating_add(close);
        Ok(Step::Goes(total, arm.breaks, t + 1))
    }

    // Behind an If at i, charged already, with Else at e and EndIf at f: both arms, Else, and EndIf.
    #[cycle(wcet)]
    fn wcet_else(
        &self,
        i: usize,
        e: usize,
        f: usize,
        left: u16,
        cost: u64,
        breaks: Option<u64>,
    ) -> Result<Step, Fault>
        requires { (to : ℕ) × ElseFits self.now.chunk.ops.now i e f to }
        ensures { (start to : ℕ) → start ≤ i → ElseFits self.now.chunk.ops.now i e f to → ElseMeans (chunk_of self.now.chunk) self.now.wholes.now start i e f to left cost (breaks_of breaks) result }
    {
        let arm = self.wcet_part(i + 1, e, left, breaks)?;
        let other = self.wcet_part(e + 1, f, left, arm.breaks)?;
        self.join_arms(e, f, cost, arm, other)
    }

    // Both arms walked: the greater of then arm and Else, and the else arm; then EndIf. The row ends if both arms do.
    fn join_arms(
        &self,
        e: usize,
        f: usize,
        cost: u64,
        arm: Cost,
        other: Cost,
    ) -> Result<Step, Fault>
        requires { (e < length self.now.chunk.ops.now) × (f < length self.now.chunk.ops.now) }
        ensures { result_of (λ s. s) result ≡ joined self.now.chunk.ops.now self.now.chunk.extras.now e f cost arm other }
    {
        let jump = op_wcet_cycles(self.chunk.ops, self.chunk.extras, e)?;
        let close = op_wcet_cycles(self.chunk.ops, self.chunk.extras, f)?;
        let greater = arm.cycles.saturating_add(jump).max(other.cycles);
        let total = cost.saturating_add(greater).saturating_add(close);
        if arm.ends && other.ends {
            return Ok(Step::Ends(total, other.breaks));
        }
        Ok(Step::Goes(total, other.breaks, f + 1))
    }

    // Behind a Loop at i of the row that begins at `from`, charged already, with EndLoop at e: the body and its passes.
    #[cycle(wcet)]
    fn wcet_loop(
        &self,
        from: usize,
        i: usize,
        e: usize,
        left: u16,
        cost: u64,
        breaks: Option<u64>,
    ) -> Result<Step, Fault>
        requires { (to : ℕ) × LoopFits self.now.chunk.ops.now i e to }
        ensures { (start to : ℕ) → Inside (op_at self.now.chunk.ops.now) start from i → LoopFits self.now.chunk.ops.now i e to → LoopMeans (chunk_of self.now.chunk) self.now.wholes.now start i e to left cost (breaks_of breaks) result }
    {
        let body = self.wcet_part(i + 1, e, left, None)?;
        if body.ends {
            return Ok(one_pass(e, cost, body, breaks));
        }
        self.all_passes(from, i, e, cost, body, breaks)
    }

    // A body that reaches EndLoop at e, of a Loop at i of the row that begins at `from`: its count, which has to be sure, EndLoop, and the passes with the
    // costliest break.
    fn all_passes(
        &self,
        from: usize,
        i: usize,
        e: usize,
        cost: u64,
        body: Cost,
        breaks: Option<u64>,
    ) -> Result<Step, Fault>
        requires { e < length self.now.chunk.ops.now }
        ensures { result_of (λ s. s) result ≡ all_passes_at (chunk_of self.now.chunk) self.now.chunk.extras.now from i e cost body breaks }
    {
        let n = sure_passes(&self.chunk, from, i)?;
        let close = op_wcet_cycles(self.chunk.ops, self.chunk.extras, e)?;
        let passes = body.cycles.saturating_add(close).saturating_mul(n as u64);
        let last = body.breaks.unwrap_or(0);
        let total = cost.saturating_add(passes.saturating_add(last));
        Ok(Step::Goes(total, breaks, e + 1))
    }
}

// A body that never reaches EndLoop at e: charged once; without a break it ends the row. That e is below 65,536 is a bound of one number: a type for it would
// be made to be taken apart.
fn one_pass(e: usize, cost: u64, body: Cost, breaks: Option<u64>) -> Step
    requires { e < 65536 }
    ensures { result ≡ one_pass_at e cost body breaks }
{
    let Some(costliest) = body.breaks else {
        return Step::Ends(cost.saturating_add(body.cycles), breaks);
    };
    let greater = body.cycles.max(costliest);
    Step::Goes(cost.saturating_add(greater), breaks, e + 1)
}
