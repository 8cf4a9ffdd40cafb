// A line that a body is asked against.
ghost use Rattle.std.specs.Prelude.{◌≡◌, ◌^◌, ◌≤◌, pos, ◌*ℤ◌, Ok, Err, unsigned_abs};
ghost use Rattle.height.specs.declared.refusal.Refusal.TheVariants.{Line as refused};

use super::refusal::Refusal;
use super::span::Span;

// So many thousandths of a degree, within 2^24 either way.
#[derive(Clone, Copy, PartialEq, Eq, Debug)]
pub struct Line {
    thousandths: i64,
    ghost near: { unsigned_abs thousandths ≤ 2 ^ 24 },
}

impl Line {
    // What a line is multiplied by to be a level.
    pub const UNIT: i64 = 1 << 30;

    pub fn thousandths(self) -> i64
        ensures { result ≡ self.thousandths }
    {
        self.thousandths
    }

    // The line as a level: kept as heights are, times 2^30.
    pub fn level(self) -> i64
        ensures { result ≡ self.thousandths *ℤ pos 1073741824 }
    {
        self.thousandths * Line::UNIT
    }
}

// The line at 0. A derive is refused over a ghost field.
impl Default for Line {
    ghost is_default = { λ line. line.thousandths ≡ pos 0 };

    fn default() -> Line {
        Line { thousandths: 0 }
    }
}

// A line within 2^24 either way is taken.
impl TryFrom<i64> for Line {
    type Error = Refusal;

    ghost try_from_gives = { λ x r. elim r [ Ok l ↦ (unsigned_abs x ≤ 2 ^ 24) × (l.thousandths ≡ x) | Err e ↦ (unsigned_abs x ≤ 2 ^ 24 → ⊥) × (e ≡ refused) ] };

    fn try_from(thousandths: i64) -> Result<Line, Refusal> {
        if thousandths.unsigned_abs() <= Span::BOUND as u64 {
            Ok(Line { thousandths })
        } else {
            Err(Refusal::Line)
        }
    }
}
