// The heading and a line of a sheet for a caller who lends a buffer: each is written from a place of it on, and what stands before and beyond is left.
ghost use Rattle.std.specs.Prelude.{◌≡◌, ◌+◌, ◌≤◌, length};
ghost use Rattle.rules.specs.Sheet.{Line, line_numbers, line_width};
ghost use Rattle.rules.specs.Text.{heading, line_most, line_text};
ghost use Rattle.text.specs.Paste.{pasted, Put};

use crate::line;
use crate::line::{HEADING, LINE};
use arrayvec::ArrayVec;
use text::lent::put_bytes;

// The heading line from place `at` on, and the place behind it.
pub fn put_heading(out: &mut [u8], at: usize) -> usize
    requires { at + length heading ≤ length out.old }
    ensures written { out.new ≡ pasted at heading out.old }
    ensures next { result ≡ at + length heading }
{
    let mut first: ArrayVec<u8, HEADING> = ArrayVec::new();
    line::put_heading(&mut first);
    put_bytes(out, at, &first)
}

// The line of chunk c, whose numbers are the row, from place `at` on, and the place behind it.
pub fn put_line(out: &mut [u8], at: usize, c: u32, row: &[u32]) -> usize
    requires { (at + line_most ≤ length out.old) × (length row.now ≡ line_width) }
    ensures written { (l : Line) → row.now ≡ line_numbers l → Put at (line_text c l) out.old out.new result }
    ensures short { result ≤ at + line_most }
{
    let mut own: ArrayVec<u8, LINE> = ArrayVec::new();
    line::put_line(&mut own, c, row);
    put_bytes(out, at, &own)
}
