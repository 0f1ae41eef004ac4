// The answer of each question, as a line.
ghost use Rattle.std.specs.Prelude.{◌≤◌};
ghost use Rattle.replay.specs.Buffers.{tray_room};

use count::entry::loop_count;
use cycles::entry::cycle_walk;
use order::entry::topological_call_order;
use sheets::module::{WIDTH, module_sheet};
use stack::entry::stack_walk;
use std::io;
use std::io::Write;
use words::limits::CHUNKS;
use words::reader::read_module;
use words::refusals::Refused;
use yields::entry::{Coverage, yield_coverage};

// The most numbers of a tray: a row a chunk, and a number more for each.
pub const TRAY: usize = (WIDTH + 1) * CHUNKS;

// What stands in a tray before the call.
const MARK: u32 = 9;

// What is asked; its discriminant is the question's number.
#[derive(Clone, Copy, Debug, PartialEq, Eq)]
pub enum Question {
    Read = 1,
    Count = 2,
    Cycles = 3,
    // With the callees' bytes.
    Stack = 4,
    Order = 5,
    Sheet = 6,
    // With a list by chunk index, 1 for a callee that always yields, in their place.
    Yields = 7,
}

// A number that no question has.
#[derive(Clone, Copy, Debug, PartialEq, Eq)]
pub struct NoQuestion(pub u32);

impl TryFrom<u32> for Question {
    type Error = NoQuestion;

    fn try_from(number: u32) -> Result<Question, NoQuestion> {
        match number {
            1 => Ok(Question::Read),
            2 => Ok(Question::Count),
            3 => Ok(Question::Cycles),
            4 => Ok(Question::Stack),
            5 => Ok(Question::Order),
            6 => Ok(Question::Sheet),
            7 => Ok(Question::Yields),
            _ => Err(NoQuestion(number)),
        }
    }
}

// The chunk and the position that a question is about, and the length of its tray or of its callees.
#[derive(Clone, Copy, Debug, PartialEq, Eq)]
pub struct Asked {
    pub chunk: usize,
    pub position: usize,
    pub room: usize,
}

// A number, or a refusal.
fn show_number<W: Write>(out: &mut W, answer: Result<u32, Refused>) -> io::Result<()> {
    match answer {
        Ok(n) => write!(out, "{n}"),
        Err(refused) => write!(out, "{refused}"),
    }
}

// The cycles, whether the row ends, and whether the cycles are cut, yes and no as 1 and 0.
fn show_cycles<W: Write>(out: &mut W, words: &[u32], c: usize) -> io::Result<()> {
    match cycle_walk(words, c) {
        Ok(figure) => write!(
            out,
            "{} {} {}",
            figure.cycles,
            u8::from(figure.ends),
            u8::from(figure.cut)
        ),
        Err(refused) => write!(out, "{refused}"),
    }
}

// Peak, delta or "ends", and bytes.
fn show_stack<W: Write>(out: &mut W, words: &[u32], c: usize, callees: &[u32]) -> io::Result<()> {
    match stack_walk(words, c, callees) {
        Ok(stack) => match stack.delta {
            Some(offset) => write!(out, "{} {} {}", stack.peak.0, offset, stack.bytes.0),
            None => write!(out, "{} ends {}", stack.peak.0, stack.bytes.0),
        },
        Err(refused) => write!(out, "{refused}"),
    }
}

// Yes, no or never.
fn show_coverage<W: Write>(out: &mut W, words: &[u32], c: usize, list: &[u32]) -> io::Result<()> {
    match yield_coverage(words, c, list) {
        Ok(Coverage::Yes) => write!(out, "yes"),
        Ok(Coverage::No) => write!(out, "no"),
        Ok(Coverage::Never) => write!(out, "never"),
        Err(refused) => write!(out, "{refused}"),
    }
}

// All numbers of a tray, what the call left as it was among them.
fn write_tray<W: Write>(out: &mut W, tray: &[u32]) -> io::Result<()> {
    write!(out, ", tray")?;
    for number in tray {
        write!(out, " {number}")?;
    }
    Ok(())
}

// How many chunks are listed or have a line, and the tray of so many numbers: what a call leaves in a lent tray.
fn show_tray<W: Write, F: FnOnce(&mut [u32]) -> Result<u32, Refused>>(
    out: &mut W,
    room: usize,
    call: F,
) -> io::Result<()>
    requires room { room ≤ tray_room }
    requires callable { F.IsAlwaysCallable call }
{
    // The call is lent a slice: a list that grows would be filled first and cut then.
    let mut tray = [MARK; TRAY];
    show_number(out, call(&mut tray[..room]))?;
    write_tray(out, &tray[..room])
}

// The answer of the question of that number; a number that no question has is not answered.
pub fn answer<W: Write>(
    out: &mut W,
    number: u32,
    asked: Asked,
    words: &[u32],
    callees: &[u32],
) -> io::Result<()>
    requires { asked.room ≤ tray_room }
{
    let Ok(question) = Question::try_from(number) else {
        return Ok(());
    };
    // Each question asks another call with arguments of its own: closures would be no plainer.
    match question {
        Question::Read => show_number(out, read_module(words)),
        Question::Count => show_number(out, loop_count(words, asked.chunk, asked.position)),
        Question::Cycles => show_cycles(out, words, asked.chunk),
        Question::Stack => show_stack(out, words, asked.chunk, callees),
        Question::Order => show_tray(out, asked.room, |tray| topological_call_order(words, tray)),
        Question::Sheet => show_tray(out, asked.room, |tray| module_sheet(words, tray)),
        Question::Yields => show_coverage(out, words, asked.chunk, callees),
    }
}
