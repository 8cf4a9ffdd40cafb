// A body seen over a line, or hidden.
ghost use Rattle.std.specs.Prelude.{◌≡◌, ◌^◌, ◌<◌, ◌≤◌, pos, ◌≤ℤ◌, unsigned_abs};
ghost use Rattle.binary.specs.Nearest.{nearest_over};
ghost use Rattle.binary.specs.Promise.{Plain};
ghost use Rattle.height.specs.Almanacs.{height_at, ticks as ticks_of};
ghost use Rattle.reading.specs.Readings.{Sights, above_line};

use super::answer::Sighting;
use binary::nearest;
use height::at::At;
use height::line::Line;
use height::meter::Meter;
use height::source::Source;

// How far the height in a tick is above a line, times 2^30.
pub fn above<S: Source>(source: &S, line: i64, tick: u64) -> i64
    requires inside { tick < ticks_of (S.almanac source.now) }
    requires small { unsigned_abs line ≤ 2 ^ 24 }
    ensures value { result ≡ above_line (height_at (S.almanac source.now) tick) line }
    ensures size { unsigned_abs result < 2 ^ 59 }
{
    source.height(tick, &mut Meter::new()) - line * Line::UNIT
}

// The same in a tick and over a line that were taken.
pub fn above_at<S: Source>(at: &At<S>, line: Line) -> i64
    ensures value { result ≡ above_line (height_at (S.almanac at.now.source.now) at.now.tick) line.thousandths }
    ensures size { unsigned_abs result < 2 ^ 59 }
{
    above(at.source, line.thousandths(), at.tick)
}

// The nearest binary64 number to how far a body is above a line.
fn nearest_above(above: i64) -> f64
    requires { pos 0 ≤ℤ above }
    ensures value { result ≡ nearest_over 30 above }
    ensures plain { Plain result }
{
    nearest::<30>(above as i128)
}

// Whether a body is seen over a line in a tick, and how high over it. On the line it is seen, at +0.0.
pub fn sighting<S: Source>(source: &S, line: i64, tick: u64) -> Sighting
    requires inside { tick < ticks_of (S.almanac source.now) }
    requires small { unsigned_abs line ≤ 2 ^ 24 }
    ensures { Sights (height_at (S.almanac source.now) tick) line result }
{
    let above = above(source, line, tick);
    let seen = above >= 0;
    if seen {
        Sighting::Seen(nearest_above(above))
    } else {
        Sighting::Hidden
    }
}

// The same in a tick and over a line that were taken.
pub fn sighting_at<S: Source>(at: &At<S>, line: Line) -> Sighting
    ensures { Sights (height_at (S.almanac at.now.source.now) at.now.tick) line.thousandths result }
{
    sighting(at.source, line.thousandths(), at.tick)
}
