// A line's numbers in a list that holds a row a chunk: where each stands, and the one place that writes them.
ghost use Rattle.std.specs.Prelude.{◌≡◌, ◌+◌, ◌*◌, ◌≤◌, length};
ghost use Rattle.rules.specs.Sheet.{line_numbers, line_width};
ghost use Rattle.text.specs.Paste.{pasted};
ghost use Rattle.lines.specs.Line.{line_is};

use crate::line::Line;
use words::limits::CHUNKS;

// The places of the numbers in a row, and how many they are: a row is part of a tray that C lends, so it stays a stretch of numbers.
pub const CYCLES: usize = 0;

pub const MARK: usize = 1;

pub const PEAK: usize = 2;

pub const BYTES: usize = 3;

pub const WHOLE: usize = 4;

pub const WIDTH: usize = 5;

// The numbers of the most chunks that a module has.
pub const ROOM: usize = CHUNKS * WIDTH;

// A line's numbers into the row of chunk c.
pub fn put_row(numbers: &mut [u32], c: usize, line: Line)
    requires { line_width * c + line_width ≤ length numbers.old }
    ensures { numbers.new ≡ pasted (line_width * c) (line_numbers (line_is line)) numbers.old }
{
    let at = WIDTH * c;
    let mark = u32::from(line.cut);
    numbers[at + CYCLES] = line.cycles;
    numbers[at + MARK] = mark;
    numbers[at + PEAK] = line.peak.0;
    numbers[at + BYTES] = line.bytes.0;
    numbers[at + WHOLE] = line.whole;
}
