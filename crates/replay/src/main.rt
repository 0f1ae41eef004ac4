// Answers questions from standard input, a line each: the answer's numbers or word, or a refusal, and the whole tray where the question has one. A question is
// 32-bit numbers, the lowest byte first: which question, chunk and position (64 bits each, the low half first), room (the tray's length, or that of a list by
// chunk index) and how many words; then the list, then the words.

#![tactic(auto)]

pub mod answers;

ghost use Rattle.std.specs.Prelude.{◌+◌, ◌≤◌};
ghost use Rattle.arrayvec.specs.ArrayVec.{array_vec_len};
ghost use Rattle.replay.specs.Buffers.{word_room};

use crate::answers::{Asked, Question, TRAY, answer};
use arrayvec::ArrayVec;
use std::io;
use std::io::{Read, Write};
use text::to_words;
use words::limits;

// One word more than a module may have, so that a longer list can be asked about.
const WORDS: usize = limits::WORDS + 1;

// The numbers that a question begins with.
const HEAD: usize = 7;

// The step of the high half of a 64-bit number: 2^32.
const HIGH: usize = 4294967296;

// The most questions.
const QUESTIONS: usize = 1000;

// So many numbers of the input behind those of a list; none where the input ends before. The list is lent: one that is handed out is copied on its way.
fn take<const N: usize, R: Read>(
    input: &mut R,
    n: usize,
    numbers: &mut ArrayVec<u32, N>,
) -> Option<()>
    requires { (array_vec_len numbers.old + n ≤ N) × (n ≤ word_room) }
{
    // `read_exact` is lent a slice: a list that grows would be filled first and cut then.
    let mut bytes = [0u8; 4 * WORDS];
    let front = &mut bytes[..4 * n];
    input.read_exact(front).ok()?;
    to_words(front, numbers);
    Some(())
}

// A number of two halves.
fn both(low: u32, high: u32) -> usize {
    low as usize + HIGH * high as usize
}

// One question, and its answer as a line; none where the input ends, or asks for more than there is room for. A number that no question has is answered by an
// empty line.
fn next_question<R: Read, W: Write>(input: &mut R, out: &mut W) -> io::Result<Option<()>> {
    let mut head: ArrayVec<u32, HEAD> = ArrayVec::new();
    if take(input, HEAD, &mut head).is_none() {
        return Ok(None);
    }
    let [number, chunk, chunk_high, position, position_high, room, n] = head.as_slice() else {
        return Ok(None);
    };
    let asked = Asked {
        chunk: both(*chunk, *chunk_high),
        position: both(*position, *position_high),
        room: *room as usize,
    };
    if TRAY < asked.room || WORDS < *n as usize {
        return Ok(None);
    }
    let with_list = *number == Question::Stack as u32 || *number == Question::Yields as u32;
    let mut callees: ArrayVec<u32, TRAY> = ArrayVec::new();
    if with_list && take(input, asked.room, &mut callees).is_none() {
        return Ok(None);
    }
    let mut words: ArrayVec<u32, WORDS> = ArrayVec::new();
    if take(input, *n as usize, &mut words).is_none() {
        return Ok(None);
    }
    answer(out, *number, asked, &words, &callees)?;
    writeln!(out)?;
    Ok(Some(()))
}

fn main(rt: HostRuntime) -> io::Result<()> {
    for _ in 0..QUESTIONS {
        if next_question(&mut rt.stdin(), &mut rt.stdout())?.is_none() {
            break;
        }
    }
    Ok(())
}
