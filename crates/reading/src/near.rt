// A height as a binary64 number.
ghost use Rattle.std.specs.Prelude.{◌<◌};
ghost use Rattle.height.specs.Almanacs.{height_at, ticks as ticks_of};
ghost use Rattle.reading.specs.Readings.{Nears};

use super::answer::Near;
use binary::{half_place, nearest};
use height::at::At;
use height::meter::Meter;
use height::source::Source;

// The height in a tick, rounded once.
pub fn near<S: Source>(source: &S, tick: u64) -> Near
    requires { tick < ticks_of (S.almanac source.now) }
    ensures { Nears (height_at (S.almanac source.now) tick) result }
{
    let exact = source.height(tick, &mut Meter::new()) as i128;
    Near {
        height: nearest::<30>(exact),
        error: half_place::<30>(exact),
    }
}

// The same in a tick that was taken.
pub fn near_at<S: Source>(at: &At<S>) -> Near
    ensures { Nears (height_at (S.almanac at.now.source.now) at.now.tick) result }
{
    near(at.source, at.tick)
}
