// The steps of a cursor: from tick to tick by three additions, and anew with each span.
ghost use Rattle.std.specs.Prelude.{◌≡◌, ◌+◌, ◌-◌, ◌/◌, ◌<◌, length, pos, Ok, Err};
ghost use Rattle.height.specs.Almanacs.{ticks as ticks_of};
ghost use Rattle.height.specs.Views.{almanac_of};
ghost use Rattle.height.specs.declared.refusal.Refusal.TheVariants.{Tick};
ghost use Rattle.reading.specs.Cursors.{Stands, Steps, moment, tick_of};
ghost use Rattle.std.specs.Iterator.{at_most};

use super::answer::Moment;
use super::cursor::Cursor;
use super::differences::Differences;
use height::at::At;
use height::file::View;
use height::refusal::Refusal;
use height::source::Source;
use height::span::Span;

impl<'a> Cursor<'a> {
    // A cursor that stands before a tick of a span. A loop over spans knows from its range that there is such a span, so no type carries it.
    pub(super) fn before(view: View<'a>, span: u64, at: u64) -> Cursor<'a>
        requires inside { span < length view.numbers.now / 4 }
        requires short { at < 1024 }
        ensures file { result.view.numbers.now ≡ view.entry.numbers.now }
        ensures span { result.span ≡ span }
        ensures at { result.at ≡ at }
    {
        let differences = Differences::of(view.span(span), at);
        Cursor {
            view,
            span,
            at,
            differences,
        }
    }

    // It stands before tick 0.
    pub fn new(view: View<'a>) -> Cursor<'a>
        ensures file { result.view.numbers.now ≡ view.entry.numbers.now }
        ensures tick { tick_of result ≡ 0 }
    {
        Cursor::before(view, 0, 0)
    }

    // The tick before which it stands; behind the last one, how many there are.
    pub fn tick(&self) -> u64
        ensures { result ≡ tick_of self.now }
    {
        self.span * Span::TICKS + self.at
    }

    // Stands before a tick of the file from now on. A tick that is not in the file is refused, and the cursor stays.
    pub fn set(&mut self, tick: u64) -> Result<(), Refusal>
        ensures { elim result [ Ok _ ↦ (tick < ticks_of (almanac_of self.old.view)) × Stands self.old tick self.new | Err e ↦ (tick < ticks_of (almanac_of self.old.view) → ⊥) × (e ≡ Tick (pos tick)) × Stands self.old (tick_of self.old) self.new ] }
    {
        let view = self.view;
        let tick = At::new(&view, tick)?.tick;
        *self = Cursor::before(view, tick / Span::TICKS, tick % Span::TICKS);
        Ok(())
    }

    // Gives the tick before which it stands, and goes one tick on.
    pub(super) fn give(&mut self) -> Moment
        requires { self.old.at < 1024 }
        ensures value { result ≡ moment (almanac_of self.old.view) (tick_of self.old) }
        ensures stands { Stands self.old (tick_of self.old + 1) self.new }
        ensures at { self.new.at ≡ self.old.at + 1 }
    {
        let moment = Moment {
            tick: self.tick(),
            height: self.differences.height,
            first: self.at == 0,
        };
        self.differences = self.differences.onward();
        self.at += 1;
        moment
    }
}

impl Iterator for Cursor<'_> {
    type Item = Moment;

    ghost next_gives = { Steps };

    ghost remaining = { λ c. at_most (ticks_of (almanac_of c.view) - tick_of c) };

    fn next(&mut self) -> Option<Moment> {
        if self.at == Span::TICKS {
            let next = self.span + 1;
            if next == self.view.spans() {
                return None;
            }
            *self = Cursor::before(self.view, next, 0);
        }
        Some(self.give())
    }
}
