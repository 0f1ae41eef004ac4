// The charge of an op: its cycles and its extra. What a callee adds to its Call is added by the walk.
ghost use Rattle.std.specs.Prelude.{◌≡◌, ◌<◌, length};
ghost use Rattle.words.specs.Refusals.{result_of};
ghost use Rattle.cycles.specs.Answers.{charge_at};

use words::figures::cycles;
use words::limits::OPEN_TEXT;
use words::refusals::{Fault, Refusal};
use words::values::extra_at;

// Cycles plus extra of the op at i, without what a callee adds; or refusal 8, open text, which is the greatest extra.
pub fn op_wcet_cycles(ops: &[u32], extras: &[u32], i: usize) -> Result<u64, Fault>
    requires { i < length ops.now }
    ensures { result_of (λ c. c) result ≡ charge_at ops.now extras.now i }
{
    let extra = extra_at(extras, i);
    if extra == OPEN_TEXT {
        return Err(Refusal::OpenText.at(i));
    }
    Ok(cycles(ops[i]) as u64 + extra as u64)
}
