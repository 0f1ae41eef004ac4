// The functions of this crate for a caller who lends a buffer: words are read to its front, and text is put from a place of it on. What stands before and beyond
// is left.
ghost use Rattle.std.specs.Prelude.{◌≡◌, ◌+◌, ◌*◌, ◌/◌, ◌≤◌, length};
ghost use Rattle.rules.specs.Outcome.{refused};
ghost use Rattle.rules.specs.Text.{bytes_in, words_of, outcome_text};
ghost use Rattle.text.specs.Field.{field_text, refused_most};
ghost use Rattle.text.specs.Paste.{pasted, Put};

use crate::put_refusal;
use arrayvec::ArrayVec;

// The most bytes of a field: twenty digits and the byte behind them.
const FIELD: usize = 21;

// The most bytes of a refusal's line.
const REFUSED: usize = 61;

// The words of the bytes to the front of `words`, and how many they are. Bytes behind the last whole word are left out.
pub fn to_words(bytes: &[u8], words: &mut [u32]) -> usize
    requires { length bytes.now / 4 ≤ length words.old }
    ensures written { Put 0 (words_of bytes.now) words.old words.new result }
    ensures count { result ≡ length bytes.now / 4 }
{
    let fours = bytes.as_chunks::<4>().0;
    for (i, &four) in fours.iter().enumerate() {
        words[i] = u32::from_le_bytes(four);
    }
    fours.len()
}

// Some bytes from place `at` on, and the place behind them.
pub fn put_bytes(out: &mut [u8], at: usize, bytes: &[u8]) -> usize
    requires { at + length bytes.now ≤ length out.old }
    ensures written { out.new ≡ pasted at bytes.now out.old }
    ensures next { result ≡ at + length bytes.now }
{
    let end = at + bytes.len();
    out[at..end].copy_from_slice(bytes);
    end
}

// Words as bytes from place `at` on, the lowest byte of each first, and the place behind them.
pub fn put_words(out: &mut [u8], at: usize, words: &[u32]) -> usize
    requires { at + 4 * length words.now ≤ length out.old }
    ensures written { out.new ≡ pasted at (bytes_in words.now) out.old }
    ensures next { result ≡ at + length (bytes_in words.now) }
{
    let mut next = at;
    for w in words {
        next = put_bytes(out, next, &w.to_le_bytes());
    }
    next
}

// The decimal digits of n, and the byte that ends the field, from place `at` on, and the place behind them.
pub fn put_field(out: &mut [u8], at: usize, n: u64, end: u8) -> usize
    requires { at + length (field_text n end) ≤ length out.old }
    ensures written { out.new ≡ pasted at (field_text n end) out.old }
    ensures next { result ≡ at + length (field_text n end) }
{
    let mut field: ArrayVec<u8, FIELD> = ArrayVec::new();
    crate::put_field(&mut field, n, end);
    put_bytes(out, at, &field)
}

// The line of a refusal from place `at` on, and the place behind it.
pub fn put_refused(out: &mut [u8], at: usize, number: u32, chunk: u64, place: u64) -> usize
    requires { at + refused_most ≤ length out.old }
    ensures written { out.new ≡ pasted at (outcome_text (refused number chunk place)) out.old }
    ensures next { result ≡ at + length (outcome_text (refused number chunk place)) }
{
    let mut line: ArrayVec<u8, REFUSED> = ArrayVec::new();
    put_refusal(&mut line, number, chunk, place);
    put_bytes(out, at, &line)
}
