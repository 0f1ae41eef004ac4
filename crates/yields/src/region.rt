// The coverage walk of a row: op after op, with the bodies of its blocks one level deeper.
ghost use Rattle.std.specs.Prelude.{◌≡◌, ℕ, ◌<◌};
ghost use Rattle.rules.specs.Yields.{note_flag};
ghost use Rattle.rows.specs.Opens.{RowFits, StepFits, IfFits, ElseFits, LoopFits};
ghost use Rattle.yields.specs.Answers.{noted_of, cover_of, behind_arms, region_cover, part_cover};
ghost use Rattle.yields.specs.Steps.{StepMeans, IfMeans, ElseMeans, LoopMeans, joined, left_by};

use rows::block::{Block, block_at};
use words::fields::is;
use words::kinds::Kind;
use words::values::number_at;

// What the walk of a row gives: whether it has yielded where it reaches its end, and nothing where it never does; and of the breaks out of the loop around it
// whether all of them had yielded, and nothing where it met none.
#[derive(Clone, Copy, Debug, PartialEq, Eq)]
pub struct Cover {
    pub coverage: Option<bool>,
    pub breaks: Option<bool>,
}

// How a row goes on behind an op or a block: with a flag and breaks at a position, or it never reaches its end.
#[derive(Clone, Copy, Debug, PartialEq, Eq)]
pub enum Step {
    Goes(bool, Option<bool>, usize),
    Ends(Option<bool>),
}

// One break more, met with that flag.
fn note(breaks: Option<bool>, yielded: bool) -> Option<bool>
    ensures { noted_of result ≡ note_flag (noted_of breaks) yielded }
{
    match breaks {
        Some(all) => Some(all & yielded),
        None => Some(yielded),
    }
}

// The flag behind both arms: of those that reach their ends.
fn behind_arms(arm: Option<bool>, other: Option<bool>) -> Option<bool>
    ensures { result ≡ behind_arms arm other }
{
    match (arm, other) {
        (Some(a), Some(b)) => Some(a & b),
        (Some(a), None) => Some(a),
        (None, b) => b,
    }
}

// Behind EndIf at f of both arms.
fn join_arms(f: usize, arm: Cover, other: Cover) -> Step
    requires { f < 65536 }
    ensures { result ≡ joined f arm other }
{
    match behind_arms(arm.coverage, other.coverage) {
        Some(yielded) => Step::Goes(yielded, other.breaks, f + 1),
        None => Step::Ends(other.breaks),
    }
}

// Behind a Loop with EndLoop at e: by its breaks, and not by its body's end.
fn leave(e: usize, body: Cover, breaks: Option<bool>) -> Step
    requires { e < 65536 }
    ensures { result ≡ left_by e body.breaks breaks }
{
    match body.breaks {
        Some(all) => Step::Goes(all, breaks, e + 1),
        None => Step::Ends(breaks),
    }
}

// The walk of some ops over a list by chunk index, 1 for a callee that always yields.
#[derive(Clone, Copy)]
pub struct CoverWalk<'a> {
    pub ops: &'a [u32],
    pub lent: &'a [u32],
}

// That the positions are a row stands in each contract: they are others at each call, so a type for them would be made only to be taken apart.
impl CoverWalk<'_> {
    // The row from `from` up to `to`, with `left` levels of nesting left inside it, from a flag and the breaks met so far.
    #[cycle(cover)]
    pub fn analyze_yield_coverage_at(
        &self,
        from: usize,
        to: usize,
        left: u16,
        initial: bool,
        breaks: Option<bool>,
    ) -> Cover
        requires { RowFits self.now.ops.now from to }
        ensures { cover_of result ≡ region_cover self.now.ops.now self.now.lent.now from to left initial (noted_of breaks) }
    {
        let mut i = from;
        let mut yielded = initial;
        let mut breaks = breaks;
        // A step says where the row goes on, behind a whole block at once, so no `for` counts the position.
        while i < to {
            match self.cover_step(i, left, yielded, breaks) {
                Step::Goes(flag, noted, next) => {
                    i = next;
                    yielded = flag;
                    breaks = noted;
                }
                Step::Ends(noted) => {
                    return Cover {
                        coverage: None,
                        breaks: noted,
                    };
                }
            }
        }
        Cover {
            coverage: Some(yielded),
            breaks,
        }
    }

    // The op at i, or the block that it opens: a `match`, since each case has positions of its own. Trap and Return are passed like any op.
    #[cycle(cover)]
    fn cover_step(&self, i: usize, left: u16, yielded: bool, breaks: Option<bool>) -> Step
        requires { (to : ℕ) × StepFits self.now.ops.now i to }
        ensures { (to : ℕ) → StepFits self.now.ops.now i to → StepMeans self.now.ops.now self.now.lent.now i to left yielded (noted_of breaks) result }
    {
        let next = i + 1;
        match block_at(self.ops, i) {
            Block::Plain => Step::Goes(yielded | is(self.ops[i], Kind::Yield), breaks, next),
            Block::Call(k) => Step::Goes(yielded | (number_at(self.lent, k) == 1), breaks, next),
            Block::Ends => Step::Goes(yielded, breaks, next),
            Block::Break => Step::Ends(note(breaks, yielded)),
            Block::BreakIf => Step::Goes(yielded, note(breaks, yielded), next),
            Block::If(t) => self.cover_if(i, t, left, yielded, breaks),
            Block::IfElse(e, f) => self.cover_else(i, e, f, left, yielded, breaks),
            Block::Loop(e) => self.cover_loop(i, e, left, yielded, breaks),
        }
    }

    // A body, one level deeper; past the limit it isn't looked at.
    #[cycle(cover)]
    fn cover_part(
        &self,
        from: usize,
        to: usize,
        left: u16,
        yielded: bool,
        breaks: Option<bool>,
    ) -> Cover
        requires { RowFits self.now.ops.now from to }
        ensures { cover_of result ≡ part_cover self.now.ops.now self.now.lent.now from to left yielded (noted_of breaks) }
    {
        if left == 0 {
            return Cover {
                coverage: Some(false),
                breaks,
            };
        }
        self.analyze_yield_coverage_at(from, to, left - 1, yielded, breaks)
    }

    // An If at i with EndIf at t: the flag behind it is of both ways, by the arm and past it.
    #[cycle(cover)]
    fn cover_if(&self, i: usize, t: usize, left: u16, yielded: bool, breaks: Option<bool>) -> Step
        requires { (to : ℕ) × IfFits self.now.ops.now i t to }
        ensures { (to : ℕ) → IfFits self.now.ops.now i t to → IfMeans self.now.ops.now self.now.lent.now i t to left yielded (noted_of breaks) result }
    {
        let arm = self.cover_part(i + 1, t, left, yielded, breaks);
        let flag = arm.coverage.unwrap_or(true) & yielded;
        Step::Goes(flag, arm.breaks, t + 1)
    }

    // An If at i with Else at e and EndIf at f: both arms.
    #[cycle(cover)]
    fn cover_else(
        &self,
        i: usize,
        e: usize,
        f: usize,
        left: u16,
        yielded: bool,
        breaks: Option<bool>,
    ) -> Step
        requires { (to : ℕ) × ElseFits self.now.ops.now i e f to }
        ensures { (to : ℕ) → ElseFits self.now.ops.now i e f to → ElseMeans self.now.ops.now self.now.lent.now i e f to left yielded (noted_of breaks) result }
    {
        let arm = self.cover_part(i + 1, e, left, yielded, breaks);
        let other = self.cover_part(e + 1, f, left, yielded, arm.breaks);
        join_arms(f, arm, other)
    }

    // A Loop at i with EndLoop at e: its body, with no break met.
    #[cycle(cover)]
    fn cover_loop(&self, i: usize, e: usize, left: u16, yielded: bool, breaks: Option<bool>) -> Step
        requires { (to : ℕ) × LoopFits self.now.ops.now i e to }
        ensures { (to : ℕ) → LoopFits self.now.ops.now i e to → LoopMeans self.now.ops.now self.now.lent.now i e to left yielded (noted_of breaks) result }
    {
        let body = self.cover_part(i + 1, e, left, yielded, None);
        leave(e, body, breaks)
    }
}
