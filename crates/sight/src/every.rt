// The search that evaluates every tick. It skips nothing: it is what the other one is tested against.
ghost use Rattle.std.specs.Prelude.{◌≡◌, ◌*◌, ◌<◌, ◌≤◌, true};
ghost use Rattle.crossing.specs.Above.{over};
ghost use Rattle.crossing.specs.Events.{happens};
ghost use Rattle.height.specs.Almanacs.{ticks as ticks_of};
ghost use Rattle.search.specs.Walks.{First};
ghost use Rattle.sight.specs.Sights.{happens_by};

use crossing::event::Event;
use height::meter::Meter;
use height::source::Source;

// Whether the height in a tick is over a level. The search below knows that there is such a tick; an `At` would check it again for each.
fn is_over<S: Source>(source: &S, level: i64, tick: u64) -> bool
    requires { tick < ticks_of (S.almanac source.now) }
    ensures { result ≡ over (S.almanac source.now) level tick }
{
    source.height(tick, &mut Meter::new()) >= level
}

// Whether an event happens in a tick, by what is so there and was in the tick before.
fn happens_now(event: Event, is: bool, was: bool) -> bool
    ensures { result ≡ happens_by event is was }
{
    match event {
        Event::Above => is,
        Event::Rise => is && !was,
        Event::Set => !is && was,
    }
}

// The first tick from one on in which an event happens, if it happens in any.
pub fn first_of_every<S: Source>(source: &S, level: i64, event: Event, from: u64) -> Option<u64>
    requires { «from» < ticks_of (S.almanac source.now) }
    ensures { First (happens event (over (S.almanac source.now) level)) true «from» (ticks_of (S.almanac source.now)) result }
{
    let mut was = is_over(source, level, from.saturating_sub(1));
    for tick in from..source.ticks() {
        let is = is_over(source, level, tick);
        if happens_now(event, is, was) {
            return Some(tick);
        }
        was = is;
    }
    None
}
