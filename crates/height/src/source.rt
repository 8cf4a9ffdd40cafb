// Whatever has spans: a checked file, and later what is made of files. Its ticks and heights are worked out here, once for all of them.
ghost use Rattle.std.specs.Prelude.{◌≡◌, ◌*◌, ◌^◌, ◌<◌, ◌≤◌, unsigned_abs};
ghost use Rattle.height.specs.Almanacs.{Almanac, height_at, ticks as ticks_of};
ghost use Rattle.height.specs.Meters.{raised};
ghost use Rattle.height.specs.Spans.{Within};
ghost use Rattle.height.specs.Views.{almanac_of};

use super::file::View;
use super::meter::Meter;
use super::span::Span;

pub trait Source {
    // the almanac that it is
    ghost almanac: { Self → Almanac };

    // How many spans there are.
    fn spans(&self) -> u64
        ensures value { result ≡ (almanac self.now).spans }
        ensures some { 1 ≤ result }
        ensures few { result ≤ 4096 };

    // How many ticks each of them has.
    fn span_ticks(&self) -> u64
        ensures value { result ≡ (almanac self.now).fine }
        ensures coarse { result ≡ 1024 };

    // One of them.
    fn span(&self, at: u64) -> Span
        requires { at < (almanac self.now).spans }
        ensures value { result ≡ (almanac self.now).span at }
        ensures small { Within (2 ^ 25) result };

    // How many ticks there are.
    final fn ticks(&self) -> u64
        ensures value { result ≡ ticks_of (almanac self.now) }
        ensures few { result ≤ 2 ^ 22 }
    {
        self.spans() * self.span_ticks()
    }

    // The height in a tick, times 2^30.
    final fn height(&self, tick: u64, meter: &mut Meter) -> i64
        requires { tick < ticks_of (almanac self.now) }
        ensures value { result ≡ height_at (almanac self.now) tick }
        ensures size { unsigned_abs result ≤ 2 ^ 57 }
        ensures counted { meter.new ≡ raised meter.old }
    {
        let n = self.span_ticks();
        let span = self.span(tick / n);
        span.height(tick % n, meter)
    }
}

impl Source for View<'_> {
    ghost almanac = { almanac_of };

    fn spans(&self) -> u64 {
        (self.numbers.len() / Span::NUMBERS) as u64
    }

    fn span_ticks(&self) -> u64 {
        Span::TICKS
    }

    fn span(&self, at: u64) -> Span {
        let (spans, _) = self.numbers.as_chunks::<4>();
        let [a, b, c, d] = spans[at as usize];
        Span { a, b, c, d }
    }
}
