// The module sheet: an entry point for any words and any lent tray.
ghost use Rattle.std.specs.Prelude.{◌≡◌, ◌*◌, length, take};
ghost use Rattle.rules.specs.Sheet.{line_width, lines_in, sheet_of, sheet_outcome, sheet_tray};
ghost use Rattle.words.specs.Parts.{chunks_in};
ghost use Rattle.words.specs.Refusals.{outcome_of};
ghost use Rattle.order.specs.Search.{Readable};
ghost use Rattle.sheets.specs.Module.{rows_of, rows_kept, numbers_of, count_of, empty_lines, Blank, Ordering};

use arrayvec::ArrayVec;
use lines::line::chunk_line;
use lines::row::{ROOM, put_row};
use order::entry::call_order;
use order::visit::Calls;
use words::chunk::chunk_with;
use words::heads::chunk_places;
use words::limits::CHUNKS;
use words::parts::parts_from;
use words::reader::read_module;
use words::refusals::{Refusal, Refused};

// The numbers of a line in the tray.
pub const WIDTH: usize = lines::row::WIDTH;

// The call order of a module: chunk indices.
pub type Order = ArrayVec<u8, CHUNKS>;

// The line of each chunk of a module into the tray, WIDTH numbers a chunk: how many lines they are, or a refusal, which writes nothing.
// `topological_call_order` begins alike, but it asks for another room: one function for both would be no plainer.
pub fn module_sheet(words: &[u32], tray: &mut [u32]) -> Result<u32, Refused>
    ensures answer { outcome_of (λ n. n) result ≡ count_of (sheet_outcome words.now (length tray.old)) }
    ensures written { tray.new ≡ sheet_tray (sheet_outcome words.now (length tray.old)) tray.old }
{
    let chunks = read_module(words)?;
    let n = chunks as usize;
    let count = WIDTH * n;
    if tray.len() < count {
        return Err(Refusal::ShortTray.at(0).in_chunk(0));
    }
    let mut numbers = [0u32; ROOM];
    let _ = sheet_of(words, n, &mut numbers)?;
    tray[..count].copy_from_slice(&numbers[..count]);
    Ok(chunks)
}

// The sheet of words that are a module of n chunks: the call order, then the numbers of the lines, a row a chunk, chunk after chunk in that order; or a refusal.
// The numbers are lent as zeros; after a refusal they say nothing.
pub fn sheet_of(words: &[u32], n: usize, numbers: &mut [u32]) -> Result<Order, Refused>
    requires { (Readable words.now n) × (Blank n numbers.old) }
    ensures { outcome_of (rows_kept n numbers.new) result ≡ rows_of (sheet_of (chunks_in words.now)) }
{
    let places = chunk_places(words, n);
    let calls = Calls {
        words,
        places: &places,
    };
    let order = call_order(&calls)?.order;
    sheet_lines(&calls, &order, numbers)?;
    Ok(order)
}

// The lines of the chunks in call order. The stack bytes and the whole figures stand in lists of their own too, for the callers' walks:
// each walk takes one of them, as C lends it a list of callees.
fn sheet_lines(calls: &Calls<'_>, order: &[u8], numbers: &mut [u32]) -> Result<(), Refused>
    requires { (Ordering calls.now order.now) × (Blank (length calls.now.places.now) numbers.old) }
    ensures { outcome_of (λ _. take (line_width * length calls.now.places.now) numbers.new) result ≡ numbers_of (lines_in order.now (chunks_in calls.now.words.now) (empty_lines (length calls.now.places.now))) }
{
    let n = calls.places.len();
    let mut bytes = [0u32; CHUNKS];
    let mut wholes = [0u32; CHUNKS];
    for &chunk_index in order {
        let c = chunk_index as usize;
        let place = calls.places[c];
        let parts = parts_from(
            calls.words,
            place.head as usize,
            place.ops as usize,
            place.extras as usize,
            place.end as usize,
        );
        let chunk = chunk_with(calls.words, parts);
        let line = chunk_line(&chunk, &bytes[..n], &wholes[..n]).map_err(|fault| fault.in_chunk(
            c,
        ))?;
        put_row(numbers, c, line);
        bytes[c] = line.bytes.0;
        wholes[c] = line.whole;
    }
    Ok(())
}
