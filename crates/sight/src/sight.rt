// A body against a level.
ghost use Rattle.std.specs.Prelude.{◌≡◌, ◌≤◌, min};
ghost use Rattle.height.specs.Almanacs.{ticks as ticks_of};
ghost use Rattle.sight.specs.Sights.{over_level, skip as skip_of};

use height::meter::Meter;
use height::source::Source;
use search::signal::{Evaluation, Signal};

// A body, a level, and the tick where the row ends, if the body does not end before. The level is kept as heights are, times 2^30.
#[derive(Clone, Copy)]
pub struct Sight<S> {
    source: S,
    level: i64,
    end: u64,
}

impl<S: Source> Sight<S> {
    // The row ends at `end`, or with the body's last tick if that comes first.
    pub fn new(source: S, level: i64, end: u64) -> Sight<S>
        ensures source { result.source ≡ source }
        ensures level { result.level ≡ level }
        ensures stop { result.«end» ≡ min «end» (ticks_of (S.Source.almanac source)) }
        ensures few { result.«end» ≤ 4194304 }
    {
        let last = source.ticks();
        Sight {
            source,
            level,
            end: end.min(last),
        }
    }
}

// How many ticks may be skipped, of `most`, at this distance from the level with this slope.
fn skip(distance: u64, slope: u64, most: u64) -> u64
    ensures value { result ≡ skip_of distance slope most }
    ensures within { result ≤ most }
{
    if distance == 0 {
        return 0;
    }
    if slope == 0 {
        return most;
    }
    ((distance - 1) / slope).min(most)
}

impl<S: Source> Signal for Sight<S> {
    ghost course = { λ s. over_level (S.Source.almanac s.source) s.level (min s.«end» (ticks_of (S.Source.almanac s.source))) };

    ghost cost = { λ _. 1 };

    fn end(&self) -> u64 {
        self.end.min(self.source.ticks())
    }

    fn evaluate(&self, tick: u64, meter: &mut Meter) -> Evaluation {
        let n = self.source.span_ticks();
        let u = tick % n;
        let span = self.source.span(tick / n);
        let height = span.height(u, meter);
        let end = self.end;
        let room = (n - 1 - u).min(end - 1 - tick);
        let skipped = skip(height.abs_diff(self.level), span.slope(), room);
        Evaluation {
            holds: height >= self.level,
            till: tick + skipped + 1,
        }
    }
}
