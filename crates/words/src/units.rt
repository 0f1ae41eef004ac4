// Slots and stack bytes: a figure in slots never stands for one in bytes.
ghost use Rattle.std.specs.Prelude.{◌≡◌, ◌≤◌, ◌/◌};
ghost use Rattle.rules.specs.Limits.{most_slots};
ghost use Rattle.rules.specs.Stack.{bytes_of};

// A number of slots of the operand stack.
#[derive(Clone, Copy, Debug, PartialEq, Eq, PartialOrd, Ord, Hash)]
pub struct Slots(pub u32);

// A number of bytes of the stack.
#[derive(Clone, Copy, Debug, PartialEq, Eq, PartialOrd, Ord, Hash)]
pub struct StackBytes(pub u32);

// The bytes of so many slots, 32 each: the one place where slots become bytes. It is no `From`, since it asks that the slots are few.
pub fn bytes_of(s: Slots) -> StackBytes
    requires { s.0 ≤ most_slots }
    ensures { result.0 ≡ bytes_of s.0 }
{
    StackBytes(32 * s.0)
}

// The whole slots in so many bytes.
impl From<StackBytes> for Slots {
    ghost from_gives = { λ b s. s.0 ≡ b.0 / 32 };

    fn from(b: StackBytes) -> Slots {
        Slots(b.0 / 32)
    }
}
