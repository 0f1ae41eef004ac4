// What the programs share: standard input into a buffer, a text to standard output, and what is said on standard error where either fails.

#![tactic(auto)]

ghost use Rattle.std.specs.Prelude.{◌≤◌, length, IfSome};

use std::convert::AsSlice;
use std::io::{Read, Write};

// The input into the buffer, up to its end or the buffer's; none if a read fails, which is told from the end of the input.
fn fill<'a, R: Read>(reader: &mut R, buf: &'a mut [u8]) -> Option<&'a [u8]>
    ensures { IfSome result (λ s. length s.now ≤ length buf.old) }
{
    let mut done: usize = 0;
    // `read_to_end` fills a `Vec`, which wants a heap, and `read_exact` does not tell a failed read from a short input, so the loop is written out.
    while done < buf.len() {
        let more = reader.read(&mut buf[done..]).ok()?;
        if more == 0 {
            break;
        }
        done += more;
    }
    Some(&buf[..done])
}

// A program's name and what failed, on standard error. Where that fails too, nobody is left to be told.
fn say<E: Write>(errors: &mut E, name: &[u8], what: &[u8]) {
    let _ = errors.write_all(name);
    let _ = errors.write_all(what);
}

// The input of the program of this name into the buffer; a read that fails is said.
pub fn read_input<'a, R: Read, E: Write>(
    reader: &mut R,
    errors: &mut E,
    name: &[u8],
    buf: &'a mut [u8],
) -> Option<&'a [u8]>
    ensures { IfSome result (λ s. length s.now ≤ length buf.old) }
{
    let input = fill(reader, buf);
    if input.is_none() {
        say(errors, name, b": cannot read\n");
    }
    input
}

// The text to standard output; a write that fails is said.
pub fn write_output<W: Write, E: Write>(writer: &mut W, errors: &mut E, name: &[u8], text: &[u8]) {
    if writer.write_all(text).is_err() {
        say(errors, name, b": cannot write\n");
    }
}

// A program of this name: the input is read into the buffer, up to the buffer's end, and the text that is made of it is written.
pub fn run<R: Read, W: Write, E: Write, T: AsSlice<u8> + Drop, F: Fn(&[u8]) -> T>(
    reader: &mut R,
    writer: &mut W,
    errors: &mut E,
    name: &[u8],
    buf: &mut [u8],
    text_of: F,
)
    requires { F.IsAlwaysCallable text_of }
{
    let Some(input) = read_input(reader, errors, name, buf) else {
        return;
    };
    let text = text_of(input);
    write_output(writer, errors, name, text.as_slice());
}
