// The call order of a module: an entry point for any words and any lent tray.
ghost use Rattle.std.specs.Prelude.{◌≡◌, [], ◌++◌, ◌≤◌, length, drop};
ghost use Rattle.rules.specs.Order.{call_order};
ghost use Rattle.rules.specs.Sheet.{order_outcome, order_tray};
ghost use Rattle.words.specs.Parts.{chunks_in};
ghost use Rattle.words.specs.Refusals.{outcome_of};
ghost use Rattle.order.specs.Search.{Shown, Located};
ghost use Rattle.order.specs.Entry.{length_of};

use crate::visit::{Calls, Ring, Search, begun, topo_visit};
use words::heads::chunk_places;
use words::reader::read_module;
use words::refusals::{Refusal, Refused};

// The search over all chunks from 0 up: a chunk that is listed already is passed over.
pub fn call_order(calls: &Calls<'_>) -> Result<Search, Ring>
    requires { Located calls.now }
    ensures { Shown result (length calls.now.places.now) [] (call_order (chunks_in calls.now.words.now)) }
{
    let n = calls.places.len();
    let mut s = begun();
    for c in 0..n {
        if !s.seen[c] {
            topo_visit(calls, c, &mut s, n + 1)?;
        }
    }
    Ok(s)
}

// The chunks of a module, each behind the chunks that it calls, into the tray: how many they are, or refusal 1, 2, 13 or 10. A refusal writes nothing.
// `module_sheet` begins alike, but it asks for another room, and `Calls` borrows the places, which have to live here: one function for both would be no plainer.
pub fn topological_call_order(words: &[u32], tray: &mut [u32]) -> Result<u32, Refused>
    ensures answer { outcome_of (λ n. n) result ≡ length_of (order_outcome words.now (length tray.old)) }
    ensures written { tray.new ≡ order_tray (order_outcome words.now (length tray.old)) tray.old }
{
    let chunks = read_module(words)?;
    let n = chunks as usize;
    if tray.len() < n {
        return Err(Refusal::ShortTray.at(0).in_chunk(0));
    }
    let places = chunk_places(words, n);
    let calls = Calls {
        words,
        places: &places,
    };
    let search = call_order(&calls)?;
    fill_tray(&search.order, tray);
    Ok(chunks)
}

// The numbers of a list into the front of the tray; what lies beyond is left.
fn fill_tray(order: &[u8], tray: &mut [u32])
    requires { length order.now ≤ length tray.old }
    ensures { tray.new ≡ order.now ++ drop (length order.now) tray.old }
{
    // By its index: what a loop over `iter_mut` leaves in a tray is not known behind it.
    for (i, &c) in order.iter().enumerate() {
        tray[i] = c as u32;
    }
}
