// The functions of `exports` under their C names, for programs in other languages to link: include/pinnaclemug.h has their C signatures. Each stands here once more since C needs
// it under its own name and with its own signature.

#![tactic(auto)]

ghost use Rattle.std.specs.Prelude.{◌≡◌, length};
ghost use Rattle.rules.specs.Writing.{write_outcome, how_many, write_tray};
ghost use Rattle.rules.specs.Sheet.{read_outcome, count_outcome, cycles_outcome, stack_outcome, order_outcome, order_tray, sheet_outcome, sheet_tray};
ghost use Rattle.rules.specs.Yields.{yield_outcome};
ghost use Rattle.order.specs.Entry.{length_of};
ghost use Rattle.sheets.specs.Module.{count_of};
ghost use Rattle.exports.specs.Packed.{packed_number, packed_cycles, packed_coverage, packed_stack, stack_numbers};

use exports::lent;

// The reader: the chunk count.
#[unsafe(no_mangle)]
pub extern "C" fn pm_read(words: &[u32]) -> u64
    ensures { result ≡ packed_number (read_outcome words.now) }
{
    exports::pm_read(words)
}

// The count of the loop at position p of chunk c.
#[unsafe(no_mangle)]
pub extern "C" fn pm_count(words: &[u32], c: u32, p: u32) -> u64
    ensures { result ≡ packed_number (count_outcome words.now c p) }
{
    exports::pm_count(words, c, p)
}

// The cycle walk of chunk c: its cycles, 2^32 more if its row ends, and 2^33 more if its cycles are cut.
#[unsafe(no_mangle)]
pub extern "C" fn pm_cycles(words: &[u32], c: u32) -> u64
    ensures { result ≡ packed_cycles (cycles_outcome words.now c) }
{
    exports::pm_cycles(words, c)
}

// Yield coverage of chunk c over a list by chunk index, 1 for a callee that always yields: 0 for no, 1 for yes, 2 for never.
#[unsafe(no_mangle)]
pub extern "C" fn pm_yields(words: &[u32], c: u32, list: &[u32]) -> u64
    ensures { result ≡ packed_coverage (yield_outcome words.now c list.now) }
{
    exports::pm_yields(words, c, list)
}

// The stack walk of chunk c over the callees' bytes: peak, delta (0 where the row ends) and bytes into out; 1 where the row ends, else 0.
#[unsafe(no_mangle)]
pub extern "C" fn pm_stack(words: &[u32], c: u32, callees: &[u32], out: &mut [i64; 3]) -> u64
    ensures answer { result ≡ packed_stack (stack_outcome words.now c callees.now) }
    ensures written { out.new ≡ stack_numbers (stack_outcome words.now c callees.now) out.old }
{
    lent::pm_stack(words, c, callees, out)
}

// The call order into the tray: how many chunks stand there.
#[unsafe(no_mangle)]
pub extern "C" fn pm_order(words: &[u32], tray: &mut [u32]) -> u64
    ensures answer { result ≡ packed_number (length_of (order_outcome words.now (length tray.old))) }
    ensures written { tray.new ≡ order_tray (order_outcome words.now (length tray.old)) tray.old }
{
    lent::pm_order(words, tray)
}

// The module sheet into the tray: how many chunks have their lines there.
#[unsafe(no_mangle)]
pub extern "C" fn pm_sheet(words: &[u32], tray: &mut [u32]) -> u64
    ensures answer { result ≡ packed_number (count_of (sheet_outcome words.now (length tray.old))) }
    ensures written { tray.new ≡ sheet_tray (sheet_outcome words.now (length tray.old)) tray.old }
{
    lent::pm_sheet(words, tray)
}

// The words of the module that the four lists hold, into the tray: how many words stand there.
#[unsafe(no_mangle)]
pub extern "C" fn pm_write(
    chunks: &[u32],
    constants: &[u32],
    ops: &[u32],
    extras: &[u32],
    tray: &mut [u32],
) -> u64
    ensures answer { result ≡ packed_number (how_many (write_outcome chunks.now constants.now ops.now extras.now (length tray.old))) }
    ensures written { tray.new ≡ write_tray (write_outcome chunks.now constants.now ops.now extras.now (length tray.old)) tray.old }
{
    lent::pm_write(chunks, constants, ops, extras, tray)
}
