// What stands at a position of a row: the one place where a walk reads how a row goes on there.
ghost use Rattle.std.specs.Prelude.{ℕ, get_or};
ghost use Rattle.rows.specs.Opens.{Opens, TellsCall, StepFits};

use words::fields;
use words::fields::is;
use words::kinds::Kind;

// An op that is passed over, a Call by its callee, Return or Trap, a break, or a block by the positions of its ends.
#[derive(Clone, Copy, Debug, PartialEq, Eq)]
pub enum Block {
    Plain,
    Call(usize),
    Ends,
    Break,
    BreakIf,
    // EndIf.
    If(usize),
    // Else and EndIf.
    IfElse(usize, usize),
    // EndLoop.
    Loop(usize),
}

// The op at i of a row, wherever the row ends.
pub fn block_at(ops: &[u32], i: usize) -> Block
    requires { (to : ℕ) × StepFits ops.now i to }
    ensures opens { (to : ℕ) → StepFits ops.now i to → Opens ops.now i to result }
    ensures calls { TellsCall (get_or ops.now i 0) result }
{
    let w = ops[i];
    let t = (w % fields::B_UNIT) as usize;
    if is(w, Kind::If) {
        let e = t - 1;
        let last = ops[e];
        if is(last, Kind::Else) {
            let f = (last % fields::B_UNIT) as usize;
            return Block::IfElse(e, f);
        }
        return Block::If(t);
    }
    if is(w, Kind::Call) {
        return Block::Call(t);
    }
    if is(w, Kind::Loop) {
        let end = t - 1;
        return Block::Loop(end);
    }
    if is(w, Kind::Break) {
        return Block::Break;
    }
    if is(w, Kind::BreakIf) {
        return Block::BreakIf;
    }
    if is(w, Kind::Return) || is(w, Kind::Trap) {
        return Block::Ends;
    }
    Block::Plain
}
