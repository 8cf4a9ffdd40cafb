// The walk from one rising or setting to the next.
ghost use Rattle.crossing.specs.Events.{crossings as crossings_of};
ghost use Rattle.search.specs.Walks.{Came, Gives, left};
ghost use Rattle.std.specs.Iterator.{at_most};
ghost use Rattle.std.specs.Prelude.{◌≡◌, ◌-◌, ◌<◌, ◌≤◌};

use super::first::first_where;
use super::signal::Signal;
use crossing::event::Crossing;
use height::meter::Meter;

// All risings and settings of the row's ticks from one on, in order of time.
#[derive(Drop)]
pub struct Crossings<'s, S: Signal> {
    signal: &'s S,
    // the tick where the walk goes on, and whether it is so in the tick before
    tick: u64,
    above: bool,
    // how many ticks were evaluated
    evaluations: u64,
    ghost short: { tick ≤ 268435456 },
    ghost inside: { tick ≤ (S.course signal.now).stop },
    ghost before: { tick < (S.course signal.now).stop → (0 < tick) × ((S.course signal.now).so (tick - 1) ≡ above) },
    ghost few: { evaluations ≤ tick },
}

impl<'s, S: Signal> Crossings<'s, S> {
    // The tick before the first one says what is so there.
    pub fn new(signal: &'s S, from: u64) -> Crossings<'s, S>
        ensures signal { result.signal.now ≡ signal.now }
        ensures came { Came (S.course signal.now) «from» result.tick result.evaluations }
        ensures whole { left (S.course signal.now) result.tick ≡ crossings_of (S.course signal.now).so «from» ((S.course signal.now).stop - «from») }
    {
        let end = signal.end();
        if from >= end {
            return Crossings {
                signal,
                tick: end,
                // no tick is left to ask it of
                above: false,
                evaluations: 0,
            };
        }
        let mut meter = Meter::new();
        let before = signal.evaluate(from.saturating_sub(1), &mut meter);
        Crossings {
            signal,
            tick: before.till,
            above: before.holds,
            evaluations: 1,
        }
    }

    // How many ticks were evaluated so far.
    pub fn evaluations(&self) -> u64
        ensures { result ≡ self.now.evaluations }
    {
        self.evaluations
    }
}

impl<S: Signal> Iterator for Crossings<'_, S> {
    type Item = Crossing;

    ghost next_gives = { λ c r e. (e.signal.now ≡ c.signal.now) × Gives (S.Signal.course c.signal.now) c.tick c.evaluations r e.tick e.evaluations };

    ghost remaining = { λ c. at_most ((S.Signal.course c.signal.now).stop - c.tick) };

    fn next(&mut self) -> Option<Crossing> {
        let found = first_where(self.signal, self.tick, !self.above);
        self.tick = found.till;
        self.evaluations += found.evaluations;
        let tick = found.tick?;
        self.above = !self.above;
        Some(Crossing {
            tick,
            rises: self.above,
        })
    }
}
