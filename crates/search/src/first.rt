// The first tick in which a condition is as wanted, becomes so, or has an event.
ghost use Rattle.std.specs.Prelude.{◌≡◌, ◌-◌, ◌*◌, ◌<◌, ◌≤◌, true};
ghost use Rattle.std.specs.Option.{unwrap_or};
ghost use Rattle.crossing.specs.Above.{becomes};
ghost use Rattle.crossing.specs.Events.{happens};
ghost use Rattle.search.specs.Walks.{First, Walked, start_for, wanted_for};

use super::signal::Signal;
use crossing::event::Event;
use height::meter::Meter;

// Where a search came to.
#[derive(Clone, Copy)]
pub struct Found {
    // the tick found, if there is one
    pub tick: Option<u64>,
    // the tick at which the walk would go on, up to which it stays as in the one found; the row's end if there is none
    pub till: u64,
    // how many ticks were evaluated
    pub evaluations: u64,
    // how many heights were worked out for them: as many as the signal says of each, which stands in the contracts, since it is the signal that knows it
    pub heights: u64,
}

// The first tick from one on in which the condition is as wanted.
pub fn first_where<S: Signal>(signal: &S, from: u64, wanted: bool) -> Found
    requires { «from» ≤ (S.course signal.now).stop }
    ensures first { First (S.course signal.now).so wanted «from» (S.course signal.now).stop result.tick }
    ensures walked { Walked (S.course signal.now) wanted «from» (unwrap_or result.tick (S.course signal.now).stop) result.till result.evaluations }
    ensures counted { result.heights ≡ result.evaluations * S.cost signal.now }
    ensures small { (result.heights ≤ 4 * result.evaluations) × ((S.course signal.now).stop ≤ 268435456) }
{
    let end = signal.end();
    let mut meter = Meter::new();
    let mut tick = from;
    let mut evaluations = 0;
    // The evaluation says where it goes on, so no range gives its ticks.
    while tick < end {
        let seen = signal.evaluate(tick, &mut meter);
        evaluations += 1;
        if seen.holds == wanted {
            return Found {
                tick: Some(tick),
                till: seen.till,
                evaluations,
                heights: meter.heights(),
            };
        }
        tick = seen.till;
    }
    Found {
        tick: None,
        till: tick,
        evaluations,
        heights: meter.heights(),
    }
}

// The first tick from one on in which the condition becomes as wanted: the first one in which it is, behind the first in which it is not.
// The second search goes on where the first one stopped, so the two are one walk.
pub fn first_turn<S: Signal>(signal: &S, from: u64, wanted: bool) -> Found
    requires { «from» < (S.course signal.now).stop }
    ensures first { First (becomes wanted (S.course signal.now).so) true «from» (S.course signal.now).stop result.tick }
    ensures walked { Walked (S.course signal.now) wanted («from» - 1) (unwrap_or result.tick (S.course signal.now).stop) result.till result.evaluations }
    ensures counted { result.heights ≡ result.evaluations * S.cost signal.now }
{
    let other = first_where(signal, from.saturating_sub(1), !wanted);
    let found = first_where(signal, other.till, wanted);
    Found {
        tick: found.tick,
        till: found.till,
        evaluations: other.evaluations + found.evaluations,
        heights: other.heights + found.heights,
    }
}

// The first tick from one on in which an event happens.
pub fn first_event<S: Signal>(signal: &S, event: Event, from: u64) -> Found
    requires { «from» < (S.course signal.now).stop }
    ensures first { First (happens event (S.course signal.now).so) true «from» (S.course signal.now).stop result.tick }
    ensures walked { Walked (S.course signal.now) (wanted_for event) (start_for event «from») (unwrap_or result.tick (S.course signal.now).stop) result.till result.evaluations }
    ensures counted { result.heights ≡ result.evaluations * S.cost signal.now }
{
    match event {
        Event::Above => first_where(signal, from, true),
        Event::Rise => first_turn(signal, from, true),
        Event::Set => first_turn(signal, from, false),
    }
}
