// Bytes to words and back, numbers and words to text, and the line of a refusal.

#![tactic(auto)]

pub mod lent;

ghost use Rattle.std.specs.Prelude.{◌≡◌, ◌++◌, ◌+◌, ◌≤◌, ◌/◌, length};
ghost use Rattle.arrayvec.specs.ArrayVec.{array_vec_len};
ghost use Rattle.rules.specs.Outcome.{refused};
ghost use Rattle.rules.specs.Text.{bytes_in, words_of, outcome_text};
ghost use Rattle.words.specs.Refusals.{refusal_number};
ghost use Rattle.text.specs.Field.{field_text, refused_most};

use arrayvec::ArrayVec;
use itoa::Buffer;
use words::refusals::Refused;

// So many words are read or written together: one by one they took half as long again, and 64 together a seventh longer.
const BLOCK: usize = 512;

// The words of the bytes behind those that are there, the lowest byte of each first. Bytes behind the last whole word are left out.
// The list is lent, since one that is handed out stands on the machine's stack twice, and that of `shelf` is of 66,000 numbers.
pub fn to_words<const N: usize>(bytes: &[u8], words: &mut ArrayVec<u32, N>)
    requires { array_vec_len words.old + length bytes.now / 4 ≤ N }
    ensures { words.new.items ≡ words.old.items ++ words_of bytes.now }
{
    let mut read = [0u32; BLOCK];
    let mut rest = bytes;
    while !rest.is_empty() {
        let (block, behind) = rest.split_at((4 * BLOCK).min(rest.len()));
        let n = lent::to_words(block, &mut read);
        words.try_extend_from_slice(&read[..n]).unwrap();
        rest = behind;
    }
}

// Some bytes behind those of a text.
pub fn put_bytes<const N: usize>(out: &mut ArrayVec<u8, N>, bytes: &[u8])
    requires { array_vec_len out.old + length bytes.now ≤ N }
    ensures { out.new.items ≡ out.old.items ++ bytes.now }
{
    out.try_extend_from_slice(bytes).unwrap();
}

// Words as bytes, the lowest byte of each first.
pub fn put_words<const N: usize>(out: &mut ArrayVec<u8, N>, words: &[u32])
    requires { array_vec_len out.old + length (bytes_in words.now) ≤ N }
    ensures { out.new.items ≡ out.old.items ++ bytes_in words.now }
{
    let mut made = [0u8; 4 * BLOCK];
    let mut rest = words;
    while !rest.is_empty() {
        let (block, behind) = rest.split_at(BLOCK.min(rest.len()));
        let end = lent::put_words(&mut made, 0, block);
        put_bytes(out, &made[..end]);
        rest = behind;
    }
}

// The decimal digits of n, and the byte that ends the field.
pub fn put_field<const N: usize>(out: &mut ArrayVec<u8, N>, n: u64, end: u8)
    requires { array_vec_len out.old + length (field_text n end) ≤ N }
    ensures { out.new.items ≡ out.old.items ++ field_text n end }
{
    let mut digits = Buffer::new();
    put_bytes(out, digits.format(n).as_bytes());
    out.push(end);
}

// The line of a refusal, by its number, chunk and place.
pub fn put_refusal<const N: usize>(out: &mut ArrayVec<u8, N>, number: u32, chunk: u64, place: u64)
    requires { array_vec_len out.old + refused_most ≤ N }
    ensures { out.new.items ≡ out.old.items ++ outcome_text (refused number chunk place) }
{
    put_bytes(out, b"refused ");
    put_field(out, u64::from(number), b' ');
    put_field(out, chunk, b' ');
    put_field(out, place, b'\n');
}

// The line of a refusal. `Display` prints the same, but its contract says nothing of the text.
pub fn put_refused<const N: usize>(out: &mut ArrayVec<u8, N>, met: Refused)
    requires { array_vec_len out.old + refused_most ≤ N }
    ensures { out.new.items ≡ out.old.items ++ outcome_text (refused (refusal_number met.refusal) met.chunk met.place) }
{
    put_refusal(
        out,
        met.refusal.number(),
        met.chunk as u64,
        met.place as u64,
    );
}
