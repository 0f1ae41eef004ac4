// What the walk of a row gives, and how it is taken into the row around it.
ghost use Rattle.std.specs.Prelude.{◌≡◌, ◌+◌, ◌≤◌};
ghost use Rattle.rules.specs.Stack.{at_least_zero, greater_delta};
ghost use Rattle.stack.specs.Levels.{Small, SmallHeight, delta_of, height_of, ends_at, lifted};

use crate::level::Level;
use words::units::Slots;

// What the walk of a row gives: the peak from the row's start, the offset at its end, if a way leads there, and whether a break out of the loop around it was
// met.
#[derive(Clone, Copy, Debug, PartialEq, Eq)]
pub struct Height {
    pub peak: Slots,
    pub delta: Option<i64>,
    pub broken: bool,
}

// The height of a row that ends at a level.
impl From<Level> for Height {
    ghost from_gives = { λ l h. height_of h ≡ ends_at l };

    fn from(l: Level) -> Height {
        Height {
            peak: l.peak,
            delta: Some(l.offset),
            broken: l.broken,
        }
    }
}

// A part's peak, lifted by the offset at which the part begins, or by 0 where that is below.
fn lift_peak(l: Level, peak: Slots) -> Slots
    requires { (Small l 1073741824) × (peak.0 ≤ 1207959552) }
    ensures { result.0 ≡ at_least_zero l.offset + peak.0 }
{
    Slots(l.offset.max(0) as u32 + peak.0)
}

// A part's height as the row around it sees it, which has the level l where the part begins.
pub fn lift(l: Level, h: Height) -> Height
    requires { (Small l 1073741824) × (SmallHeight (height_of h) 1073741824) }
    ensures { height_of result ≡ lifted l.offset (height_of h) }
{
    Height {
        peak: lift_peak(l, h.peak),
        delta: h.delta.map(|offset| l.offset + offset),
        broken: h.broken,
    }
}

// The greater delta of those that go on: `max`, under the name that the definition has.
pub fn greater_delta(a: Option<i64>, b: Option<i64>) -> Option<i64>
    ensures { delta_of result ≡ greater_delta (delta_of a) (delta_of b) }
{
    a.max(b)
}
