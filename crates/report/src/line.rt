// The lines of a sheet that is no refusal: its heading, and the one place that reads a row.
ghost use Rattle.std.specs.Prelude.{◌≡◌, ◌++◌, Bool, ◌+◌, ◌≤◌, length};
ghost use Rattle.arrayvec.specs.ArrayVec.{array_vec_len};
ghost use Rattle.rules.specs.Sheet.{Line, mark_number, line_numbers, line_width};
ghost use Rattle.rules.specs.Text.{heading, line_most, line_text};
ghost use Rattle.report.specs.Report.{cycles_text, cycles_most};

use arrayvec::ArrayVec;
use lines::row::{BYTES, CYCLES, MARK, PEAK, WHOLE};
use text::{put_bytes, put_field};

// The bytes of the heading.
pub const HEADING: usize = 30;

// The most bytes of a number: ten digits and the byte behind them.
const FIELD: usize = 11;

// The fields of a line: its chunk, cycles, peak, bytes and whole figure.
const FIELDS: usize = 5;

// The most bytes of a line: its fields and a plus sign.
pub const LINE: usize = FIELDS * FIELD + 1;

// The heading line.
pub fn put_heading<const N: usize>(out: &mut ArrayVec<u8, N>)
    requires { array_vec_len out.old + length heading ≤ N }
    ensures { out.new.items ≡ out.old.items ++ heading }
{
    put_bytes(out, b"chunk cycles peak bytes whole\n");
}

// The cycles of a line and a space; a plus sign between them where the cycles are cut. The mark is the number of a row of the tray, as C has it, and so no bool.
fn put_cycles<const N: usize>(out: &mut ArrayVec<u8, N>, cycles: u32, mark: u32)
    requires { array_vec_len out.old + cycles_most ≤ N }
    ensures written { (cut : Bool) → mark ≡ mark_number cut → out.new.items ≡ out.old.items ++ cycles_text cycles cut }
    ensures short { array_vec_len out.new ≤ array_vec_len out.old + cycles_most }
{
    if mark == 0 {
        put_field(out, cycles as u64, b' ');
    } else {
        put_field(out, cycles as u64, b'+');
        put_bytes(out, b" ");
    }
}

// The line of chunk c, whose numbers are the row.
pub fn put_line<const N: usize>(out: &mut ArrayVec<u8, N>, c: u32, row: &[u32])
    requires { (array_vec_len out.old + line_most ≤ N) × (length row.now ≡ line_width) }
    ensures written { (l : Line) → row.now ≡ line_numbers l → out.new.items ≡ out.old.items ++ line_text c l }
    ensures short { array_vec_len out.new ≤ array_vec_len out.old + line_most }
{
    put_field(out, c as u64, b' ');
    put_cycles(out, row[CYCLES], row[MARK]);
    put_field(out, row[PEAK] as u64, b' ');
    put_field(out, row[BYTES] as u64, b' ');
    put_field(out, row[WHOLE] as u64, b'\n');
}
