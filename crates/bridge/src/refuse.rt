// A refusal as two numbers.
ghost use Rattle.bridge.specs.Answers.{CheckSays, told};
ghost use Rattle.std.specs.Prelude.{◌≡◌, Ok, Err};

use super::answer::Refused;
use height::refusal::Refusal;
use height::view::check;

// Nothing is refused.
pub const NOTHING: Refused = Refused {
    number: 0,
    place: 0,
};

// A place that is no u64 is handed out as 0; no exported function refuses at one.
impl From<Refusal> for Refused {
    ghost from_gives = { λ e r. r ≡ told e };

    fn from(refusal: Refusal) -> Refused {
        Refused {
            number: refusal.number(),
            place: u64::try_from(refusal.place()).unwrap_or(0),
        }
    }
}

// The answer that is handed out: what was found, or why that is refused.
pub(super) fn tell<T, A: From<T> + From<Refused>>(asked: Result<T, Refusal>) -> A
    ensures { elim asked [ Ok v ↦ ⟦<A as From<T>>⟧.from_gives v result | Err e ↦ ⟦<A as From<Refused>>⟧.from_gives (told e) result ] }
{
    match asked {
        Ok(value) => value.into(),
        Err(refusal) => Refused::from(refusal).into(),
    }
}

// Whether the numbers are a file that is taken.
#[unsafe(no_mangle)]
pub extern "C" fn pocketmica_check(spans: &[i32]) -> Refused
    ensures { CheckSays spans.now result }
{
    match check(spans) {
        Ok(()) => NOTHING,
        Err(refusal) => refusal.into(),
    }
}
