// The program `sheet`, and what it prints from the bytes that it read. The module `shelf` is of the program `shelf`.

#![tactic(auto)]

pub mod lent;
pub mod line;
pub mod shelf;

ghost use Rattle.std.specs.Prelude.{◌≡◌, ◌++◌, ◌+◌, ◌*◌, ◌≤◌, ◌<◌, List, length, take, OnOk, IfErr};
ghost use Rattle.arrayvec.specs.ArrayVec.{array_vec_len};
ghost use Rattle.rules.specs.Limits.{most_words};
ghost use Rattle.rules.specs.Outcome.{refused};
ghost use Rattle.rules.specs.Sheet.{Line, line_width, tray_numbers};
ghost use Rattle.rules.specs.Text.{line_most, lines_text, outcome_text, sheet_most, sheet_text};
ghost use Rattle.words.specs.Refusals.{refusal_number};
ghost use Rattle.report.specs.Report.{LinesFit};

use arrayvec::ArrayVec;
use line::{HEADING, LINE, put_heading, put_line};
use lines::row::{ROOM, WIDTH};
use sheets::module::sheet_of;
use std::io::{Read, Write};
use text::{put_refused, to_words};
use words::limits::{CHUNKS, WORDS};
use words::reader::read_module;
use words::refusals::{Refusal, Refused};

// The bytes of the longest word list.
const LONGEST: usize = 4 * WORDS;

// A buffer for the input holds one byte more, so that a longer input is seen to be one.
pub const IN: usize = LONGEST + 1;

// The most bytes of a text.
pub const OUT: usize = HEADING + CHUNKS * LINE;

// The program around `sheet_text`. The buffer has room for more than the bytes of the longest word list: with less, a list that is too long would be read as
// one of the longest.
pub fn run_sheet<R: Read, W: Write, E: Write>(
    reader: &mut R,
    writer: &mut W,
    errors: &mut E,
    buf: &mut [u8],
)
    requires { 4 * most_words < length buf.old }
{
    filter::run(reader, writer, errors, b"sheet", buf, sheet_text);
}

// The text for the bytes of an input. `shelf_bytes` has the same two steps; the room of a text is part of its type, and a closure over it is refused ("a bound
// `Fn`, `FnMut` or `FnOnce` names a const parameter"), so each stands for itself.
pub fn sheet_text(input: &[u8]) -> ArrayVec<u8, OUT>
    ensures { result.items ≡ sheet_text input.now }
{
    let mut out = ArrayVec::new();
    if let Err(refused) = put_sheet(input, &mut out) {
        put_refused(&mut out, refused);
    }
    out
}

// The heading and a line a chunk in call order, or a refusal, which puts nothing.
fn put_sheet(input: &[u8], out: &mut ArrayVec<u8, OUT>) -> Result<(), Refused>
    requires { array_vec_len out.old + sheet_most ≤ OUT }
    ensures sheet { OnOk result (out.new.items ≡ out.old.items ++ sheet_text input.now) }
    ensures refusal { IfErr result (λ e. (out.new.items ≡ out.old.items) × (sheet_text input.now ≡ outcome_text (refused (refusal_number e.refusal) e.chunk e.place))) }
{
    if input.len() % 4 != 0 || LONGEST < input.len() {
        return Err(Refusal::BadHead.at(0).in_chunk(0));
    }
    let mut words: ArrayVec<u32, WORDS> = ArrayVec::new();
    to_words(input, &mut words);
    let n = read_module(&words)? as usize;
    let mut numbers = [0u32; ROOM];
    let order = sheet_of(&words, n, &mut numbers)?;
    put_heading(out);
    put_lines(&order, &numbers, out);
    Ok(())
}

// The lines of the chunks of the order.
fn put_lines<const N: usize>(order: &[u8], numbers: &[u32], out: &mut ArrayVec<u8, N>)
    requires { LinesFit order.now numbers.now × (array_vec_len out.old + line_most * length order.now ≤ N) }
    ensures { (ls : List Line) → take (line_width * length order.now) numbers.now ≡ tray_numbers ls → out.new.items ≡ out.old.items ++ lines_text order.now ls }
{
    for &c in order {
        let from = WIDTH * c as usize;
        let to = from + WIDTH;
        put_line(out, c as u32, &numbers[from..to]);
    }
}
