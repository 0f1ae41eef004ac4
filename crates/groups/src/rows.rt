// The rows by kind, and how they are printed.
ghost use Rattle.std.specs.Prelude.{◌≡◌, ◌++◌, ◌+◌, ◌*◌, ◌≤◌, ◌<◌, length};
ghost use Rattle.arrayvec.specs.ArrayVec.{array_vec_len};
ghost use Rattle.rules.specs.Table.{kind_count, table_line, table_rows};
ghost use Rattle.groups.specs.Rows.{figures_of, figures_at, row_most};

use crate::line::Figures;
use arrayvec::ArrayVec;
use text::put_field;
use words::kinds::KINDS;

// The most bytes of a row: two digits, three numbers of ten, and a byte behind each.
pub const ROW: usize = 36;

// The figures of each kind, none while no group has it.
pub type Table = [Option<Figures>; KINDS];

// The row of a kind, by its number: each of the 66 has one.
fn put_row<const N: usize>(out: &mut ArrayVec<u8, N>, k: u32, figures: Figures)
    requires { (array_vec_len out.old + row_most ≤ N) × (k < kind_count) }
    ensures written { out.new.items ≡ out.old.items ++ table_line k (figures_of figures) }
    ensures short { array_vec_len out.new ≤ array_vec_len out.old + row_most }
{
    put_field(out, k as u64, b' ');
    put_field(out, figures.cycles as u64, b' ');
    put_field(out, figures.growth as u64, b' ');
    put_field(out, figures.shrink as u64, b'\n');
}

// The rows of all kinds in order.
pub fn put_rows<const N: usize>(table: &Table, out: &mut ArrayVec<u8, N>)
    requires { array_vec_len out.old + row_most * kind_count ≤ N }
    ensures { out.new.items ≡ out.old.items ++ table_rows (λ k. figures_at table.now k) }
{
    for (k, row) in table.iter().enumerate() {
        put_row(out, k as u32, row.unwrap_or_default());
    }
}
