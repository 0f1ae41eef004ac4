// The program `shelf`, and what it writes from the bytes that it read.
ghost use Rattle.std.specs.Prelude.{◌≡◌, ◌++◌, ◌+◌, ◌*◌, ◌≤◌, ◌<◌, length, OnOk, IfErr};
ghost use Rattle.arrayvec.specs.ArrayVec.{array_vec_len};
ghost use Rattle.rules.specs.Limits.{most_words};
ghost use Rattle.rules.specs.Outcome.{refused};
ghost use Rattle.rules.specs.Text.{outcome_text};
ghost use Rattle.rules.specs.Shelf.{most_numbers, shelf_bytes};
ghost use Rattle.words.specs.Refusals.{refusal_number};

use arrayvec::ArrayVec;
use filter::{read_input, write_output};
use std::io::{Read, Write};
use text::{put_refused, put_words, to_words};
use words::limits::WORDS;
use words::refusals::{Refusal, Refused};
use writer::entry::write_module;

// The most numbers that are read.
const NUMBERS: usize = 66000;

// The numbers in front of the lists: 0 and the lengths of the four.
const HEAD: usize = 5;

// The bytes of the longest input.
const LONGEST: usize = 4 * NUMBERS;

// A buffer for the input holds one byte more, so that a longer input is seen to be one.
pub const SHELF_IN: usize = LONGEST + 1;

// The bytes of the longest module.
pub const SHELF_OUT: usize = 4 * WORDS;

// The program around `shelf_bytes`. The buffer has room for more than the bytes of the longest input: with less, an input that is too long would be read as one
// of the longest.
pub fn run_shelf<R: Read, W: Write, E: Write>(
    reader: &mut R,
    writer: &mut W,
    errors: &mut E,
    buf: &mut [u8],
)
    requires { 4 * most_numbers < length buf.old }
{
    let name = b"shelf";
    let Some(input) = read_input(reader, errors, name, buf) else {
        return;
    };
    // Not by way of `filter::run`: handed out through it the text, 64 KiB, would stand on the machine's stack once more.
    let text = shelf_bytes(input);
    write_output(writer, errors, name, &text);
}

// What `shelf` writes for the bytes of an input.
pub fn shelf_bytes(input: &[u8]) -> ArrayVec<u8, SHELF_OUT>
    ensures { result.items ≡ shelf_bytes input.now }
{
    let mut out = ArrayVec::new();
    if let Err(refused) = put_module(input, &mut out) {
        put_refused(&mut out, refused);
    }
    out
}

// The words of the lent module as bytes, or a refusal, which puts nothing. The numbers of the lists are cut apart where the lengths say, if these are of just what is
// there.
fn put_module(input: &[u8], out: &mut ArrayVec<u8, SHELF_OUT>) -> Result<(), Refused>
    requires { array_vec_len out.old + 4 * most_words ≤ SHELF_OUT }
    ensures filed { OnOk result (out.new.items ≡ out.old.items ++ shelf_bytes input.now) }
    ensures refusal { IfErr result (λ e. (out.new.items ≡ out.old.items) × (shelf_bytes input.now ≡ outcome_text (refused (refusal_number e.refusal) e.chunk e.place))) }
{
    let unfit = Refusal::UnfitPart.at(0).in_chunk(0);
    if input.len() % 4 != 0 || LONGEST < input.len() {
        return Err(unfit);
    }
    let mut numbers: ArrayVec<u32, NUMBERS> = ArrayVec::new();
    to_words(input, &mut numbers);
    if numbers.len() < HEAD {
        return Err(unfit);
    }
    // Where the lists start behind the first, and where the last one ends.
    let constants = HEAD + numbers[1] as usize;
    let ops = constants + numbers[2] as usize;
    let extras = ops + numbers[3] as usize;
    let end = extras + numbers[4] as usize;
    if end != numbers.len() || numbers[0] != 0 {
        return Err(unfit);
    }
    // The writer is lent a slice: a list that grows would be filled first and cut then.
    let mut tray = [0u32; WORDS];
    let n = write_module(
        &numbers[HEAD..constants],
        &numbers[constants..ops],
        &numbers[ops..extras],
        &numbers[extras..],
        &mut tray,
    )?;
    put_words(out, &tray[..n as usize]);
    Ok(())
}
