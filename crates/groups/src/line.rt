// One line of groups: where it ends, its numbers, and the group that they are.
ghost use Rattle.std.specs.Prelude.{◌≡◌, suc, length, drop};
ghost use Rattle.rules.specs.Table.{number_of, group_of};
ghost use Rattle.words.specs.Found.{found_of};
ghost use Rattle.groups.specs.Line.{before, line_is};

use words::kinds::Kind;

// The numbers of a group.
const FIELDS: usize = 5;

// The byte between two fields.
const SPACE: u8 = b' ';

// What an op of a kind costs and does to the operand stack.
#[derive(Clone, Copy, Debug, Default, PartialEq, Eq)]
pub struct Figures {
    pub cycles: u32,
    pub growth: u32,
    pub shrink: u32,
}

// The kinds from `first` to `last` and their figures. The kinds are numbers: a line may have any of the 66, of which `Kind` names those that the code asks for.
#[derive(Clone, Copy, Debug, PartialEq, Eq)]
pub struct Group {
    pub first: u32,
    pub last: u32,
    pub figures: Figures,
}

// What stands before the first byte `stop`, and what behind it; where there is none, all of it and nothing.
pub fn cut_at(bytes: &[u8], stop: u8) -> (&[u8], &[u8])
    ensures front { result.0.now ≡ before stop bytes.now }
    ensures behind { result.1.now ≡ drop (suc (length (before stop bytes.now))) bytes.now }
{
    let place = bytes.iter().position(|&byte| byte == stop);
    match place {
        Some(at) => (&bytes[..at], &bytes[at + 1..]),
        None => (bytes, &[]),
    }
}

// The number of a field, if it is one: no leading zero, and no more than 32 bits. It is looked at no further once it is too great. (std's `parse` takes leading zeros and a plus sign.)
fn number_of(field: &[u8]) -> Option<u32>
    ensures { found_of result ≡ number_of field.now }
{
    match field {
        [] => return None,
        [b'0', _, ..] => return None,
        _ => {}
    }
    let mut value: u32 = 0;
    for &digit in field {
        if !digit.is_ascii_digit() {
            return None;
        }
        value = value.checked_mul(10)?.checked_add((digit - b'0') as u32)?;
    }
    Some(value)
}

// The group of a line without its newline, if it is one.
pub fn group_of(line: &[u8]) -> Option<Group>
    ensures { line_is result ≡ group_of line.now }
{
    let mut fields = line.split(|&byte| byte == SPACE);
    let mut numbers = [0u32; FIELDS];
    for number in &mut numbers {
        *number = number_of(fields.next()?)?;
    }
    let [first, last, cycles, growth, shrink] = numbers;
    if fields.next().is_some() || last < first || last > Kind::CallExternalNative as u32 {
        return None;
    }
    Some(Group {
        first,
        last,
        figures: Figures {
            cycles,
            growth,
            shrink,
        },
    })
}
