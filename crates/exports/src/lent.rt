// The proved functions that leave numbers in a lent buffer. A refusal leaves the buffer as it was.
ghost use Rattle.std.specs.Prelude.{◌≡◌, length};
ghost use Rattle.rules.specs.Writing.{write_outcome, how_many, write_tray};
ghost use Rattle.rules.specs.Sheet.{stack_outcome, order_outcome, order_tray, sheet_outcome, sheet_tray};
ghost use Rattle.order.specs.Entry.{length_of};
ghost use Rattle.sheets.specs.Module.{count_of};
ghost use Rattle.exports.specs.Packed.{packed_number, packed_stack, stack_numbers};

use crate::{pack, pack_refusal};
use order::entry::topological_call_order;
use sheets::module::module_sheet;
use stack::entry::stack_walk;
use writer::entry::write_module;

// The stack walk of chunk c over the callees' bytes: peak, delta (0 where the row ends) and bytes into out; 1 where the row ends, else 0.
pub fn pm_stack(words: &[u32], c: u32, callees: &[u32], out: &mut [i64; 3]) -> u64
    ensures answer { result ≡ packed_stack (stack_outcome words.now c callees.now) }
    ensures written { out.new ≡ stack_numbers (stack_outcome words.now c callees.now) out.old }
{
    let answer = stack_walk(words, c as usize, callees);
    match answer {
        Ok(stack) => {
            *out = [
                stack.peak.0 as i64,
                stack.delta.unwrap_or(0),
                stack.bytes.0 as i64,
            ];
            u64::from(stack.delta.is_none())
        }
        Err(refused) => pack_refusal(refused),
    }
}

// The call order into the tray: how many chunks stand there.
pub fn pm_order(words: &[u32], tray: &mut [u32]) -> u64
    ensures answer { result ≡ packed_number (length_of (order_outcome words.now (length tray.old))) }
    ensures written { tray.new ≡ order_tray (order_outcome words.now (length tray.old)) tray.old }
{
    pack(topological_call_order(words, tray))
}

// The module sheet into the tray: how many chunks have their lines there.
pub fn pm_sheet(words: &[u32], tray: &mut [u32]) -> u64
    ensures answer { result ≡ packed_number (count_of (sheet_outcome words.now (length tray.old))) }
    ensures written { tray.new ≡ sheet_tray (sheet_outcome words.now (length tray.old)) tray.old }
{
    pack(module_sheet(words, tray))
}

// The words of the module that the four lists hold, into the tray: how many words stand there.
pub fn pm_write(
    chunks: &[u32],
    constants: &[u32],
    ops: &[u32],
    extras: &[u32],
    tray: &mut [u32],
) -> u64
    ensures answer { result ≡ packed_number (how_many (write_outcome chunks.now constants.now ops.now extras.now (length tray.old))) }
    ensures written { tray.new ≡ write_tray (write_outcome chunks.now constants.now ops.now extras.now (length tray.old)) tray.old }
{
    pack(write_module(chunks, constants, ops, extras, tray))
}
