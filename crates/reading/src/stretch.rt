// The ticks of one span, one after the other.
ghost use Rattle.std.specs.Prelude.{◌≡◌, ◌-◌, ◌*◌, ◌/◌, ◌<◌, length};
ghost use Rattle.reading.specs.Cursors.{StepsInSpan, tick_of};
ghost use Rattle.std.specs.Iterator.{at_most};

use super::answer::Moment;
use super::cursor::Cursor;
use height::file::View;
use height::span::Span;

// What a cursor has still to give of its span. A loop over spans with one over their ticks in it goes as fast as one written by hand.
#[derive(Clone, Copy)]
pub struct Stretch<'a> {
    pub(super) cursor: Cursor<'a>,
}

impl<'a> Stretch<'a> {
    // All ticks of a span of the file. Who goes over spans knows from the range that there is such a span.
    pub fn new(view: View<'a>, span: u64) -> Stretch<'a>
        requires { span < length view.numbers.now / 4 }
        ensures file { result.cursor.view.numbers.now ≡ view.entry.numbers.now }
        ensures tick { tick_of result.cursor ≡ span * 1024 }
        ensures whole { result.cursor.at ≡ 0 }
    {
        Stretch {
            cursor: Cursor::before(view, span, 0),
        }
    }
}

impl Iterator for Stretch<'_> {
    type Item = Moment;

    ghost next_gives = { StepsInSpan };

    ghost remaining = { λ s. at_most (1024 - s.cursor.at) };

    fn next(&mut self) -> Option<Moment> {
        if self.cursor.at == Span::TICKS {
            return None;
        }
        Some(self.cursor.give())
    }
}
