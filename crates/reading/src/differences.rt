// A height with its first three differences, by which it goes on from tick to tick.
ghost use Rattle.std.specs.Prelude.{◌≡◌, ◌^◌, ◌<◌};
ghost use Rattle.height.specs.Spans.{Within};
ghost use Rattle.reading.specs.Differences.{Room, differences_of, onward as onward_of};

use height::meter::Meter;
use height::span::Span;
use integers::times;

// A height times 2^30, how much it changes to the next tick, how much that changes, and how much that does.
#[derive(Clone, Copy)]
pub struct Differences {
    pub(super) height: i64,
    pub(super) first: i64,
    pub(super) second: i64,
    pub(super) third: i64,
}

impl Differences {
    // Those of a span in a tick.
    pub(super) fn of(span: Span, tick: u64) -> Differences
        requires inside { tick < 1024 }
        requires small { Within (2 ^ 25) span }
        ensures { result ≡ differences_of 1024 span tick }
    {
        let u = tick as u32;
        let b = times(span.b, 1_048_576);
        let c = times(span.c, 1024 * (2 * u + 1));
        let d = times(span.d, 3 * (u * u) + 3 * u + 1);
        let bend = times(span.c, 2048);
        let turn = times(span.d, 6 * (u + 1));
        let third = times(span.d, 6);
        let height = span.height(tick, &mut Meter::new());
        Differences {
            height,
            first: b + c + d,
            second: bend + turn,
            third,
        }
    }

    // One tick on: three additions.
    pub(super) fn onward(self) -> Differences
        requires { Room self }
        ensures height { result.height ≡ (onward_of self).height }
        ensures first { result.first ≡ (onward_of self).first }
        ensures second { result.second ≡ (onward_of self).second }
        ensures third { result.third ≡ (onward_of self).third }
    {
        Differences {
            height: self.height + self.first,
            first: self.first + self.second,
            second: self.second + self.third,
            third: self.third,
        }
    }
}
