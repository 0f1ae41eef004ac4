// What the program `optable` prints, from the bytes that it read.

#![tactic(auto)]

pub mod line;
mod rows;

ghost use Rattle.std.specs.Prelude.{◌≡◌};
ghost use Rattle.rules.specs.Table.{table_text};
ghost use Rattle.groups.specs.Groups.{groups_text};

use arrayvec::ArrayVec;
use line::{cut_at, group_of};
use rows::{ROW, Table, put_rows};
use text::put_refused;
use words::kinds::KINDS;
use words::refusals::Refusal;

// So many bytes of an input are enough: what stands behind them changes no text.
pub const FRONT: usize = 2575;

// The most bytes of a text.
pub const OUT: usize = KINDS * ROW;

// The byte that ends a line.
const NEWLINE: u8 = b'\n';

// The rows of the lines' groups, or the number of the first bad line, or of the lines where only a kind is left out. Each byte is looked at four times at most,
// none behind the first bad line.
fn read_groups(bytes: &[u8]) -> Result<Table, usize>
    ensures { groups_text result ≡ table_text bytes.now }
{
    let mut table: Table = [None; KINDS];
    let mut rest = bytes;
    // How many lines were cut off: what is answered where one is bad.
    let mut lines = 0;
    while !rest.is_empty() {
        let (line, behind) = cut_at(rest, NEWLINE);
        let group = group_of(line).ok_or(lines)?;
        let kinds = &mut table[group.first as usize..=group.last as usize];
        if kinds.iter().any(|row| row.is_some()) {
            return Err(lines);
        }
        kinds.fill(Some(group.figures));
        lines += 1;
        rest = behind;
    }
    if table.iter().any(|row| row.is_none()) {
        return Err(lines);
    }
    Ok(table)
}

// The text for these bytes.
pub fn table_text(bytes: &[u8]) -> ArrayVec<u8, OUT>
    ensures { result.items ≡ table_text bytes.now }
{
    let mut out = ArrayVec::new();
    let groups = read_groups(bytes);
    match groups {
        Ok(table) => put_rows(&table, &mut out),
        Err(line) => put_refused(&mut out, Refusal::BadWord.at(line).in_chunk(0)),
    }
    out
}
