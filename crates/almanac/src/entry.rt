// The entries over lent numbers. Each that is handed a file checks it first. Those that answer a `When` answer a refusal by its number alone.
ghost use Rattle.std.specs.Prelude.{◌≡◌, ◌+◌, ◌*◌, pos, Ok, Err};
ghost use Rattle.almanac.specs.Answers.{FirstAsked, FirstSays, HeightSays, SpansSays};
ghost use Rattle.almanac.specs.Refuses.{Refuses, Taken};
ghost use Rattle.height.specs.Almanacs.{height_at, rounded};
ghost use Rattle.height.specs.Files.{almanac_in};
ghost use Rattle.reading.specs.Readings.{Nears, Sights};

use super::almanac::Almanac;
use super::ask::First;
use crossing::event::Event;
use height::line::Line;
use height::refusal::Refusal;
use reading::answer::{Near, Sighting};

// It holds what Option and Result would: a rule of the project, which fixes this answer and the two functions that give it. `first_in` and `height_in` answer a Result.
#[derive(Clone, Copy, PartialEq, Eq, Debug)]
pub enum When {
    At(u64),
    Never,
    // A height in thousandths of a degree.
    Stands(i64),
    Refused(u64),
}

// From a tick on, the first one in which a body is above a line (0), rises (1) or sets (2), with how many heights were worked out; or why that is refused.
// What is asked is a number, as the project fixes it for `first_of` and C hands it in; a wrong one is refused behind a wrong file, line and tick.
pub fn first_in(spans: &[i32], line: i64, from: u64, what: u64) -> Result<First, Refusal>
    ensures { elim result [ Ok a ↦ FirstAsked spans.now line «from» what a.tick a.evaluations | Err e ↦ Refuses spans.now line «from» what e ] }
{
    let almanac = Almanac::try_from(spans)?;
    let line = Line::try_from(line)?;
    almanac.at(from)?;
    let event = Event::try_from(what)?;
    almanac.first_over(line, event, from)
}

// The same without the count.
pub fn first_of(spans: &[i32], line: i64, from: u64, what: u64) -> When
    ensures { FirstSays spans.now line «from» what result }
{
    match first_in(spans, line, from, what) {
        Ok(first) => match first.tick {
            Some(tick) => When::At(tick),
            None => When::Never,
        },
        Err(refusal) => When::Refused(refusal.number()),
    }
}

// The height in a tick, in whole thousandths, or why it is refused.
pub fn height_in(spans: &[i32], tick: u64) -> Result<i64, Refusal>
    ensures { elim result [ Ok h ↦ Taken spans.now (pos 0) tick 0 × (h ≡ rounded 1024 (height_at (almanac_in 1024 spans.now) tick)) | Err e ↦ Refuses spans.now (pos 0) tick 0 e ] }
{
    Almanac::try_from(spans)?.height(tick)
}

// The same as a `When`.
pub fn height_of(spans: &[i32], tick: u64) -> When
    ensures { HeightSays spans.now tick result }
{
    match height_in(spans, tick) {
        Ok(height) => When::Stands(height),
        Err(refusal) => When::Refused(refusal.number()),
    }
}

// A tick of the file, from a span and a tick in it.
pub fn tick_of(span: u16, tick: u16) -> u64
    ensures { result ≡ 1024 * span + tick }
{
    1024 * span as u64 + tick as u64
}

// The height in a tick as a binary64 number, and how far off that is at most.
pub fn near_of(spans: &[i32], tick: u64) -> Result<Near, Refusal>
    ensures { elim result [ Ok x ↦ Taken spans.now (pos 0) tick 0 × Nears (height_at (almanac_in 1024 spans.now) tick) x | Err e ↦ Refuses spans.now (pos 0) tick 0 e ] }
{
    Almanac::try_from(spans)?.near(tick)
}

// Whether a body is seen over a line in a tick, and how high over it.
pub fn sighting_of(spans: &[i32], line: i64, tick: u64) -> Result<Sighting, Refusal>
    ensures { elim result [ Ok x ↦ Taken spans.now line tick 0 × Sights (height_at (almanac_in 1024 spans.now) tick) line x | Err e ↦ Refuses spans.now line tick 0 e ] }
{
    Almanac::try_from(spans)?.sighting(line, tick)
}

// The spans from one up to another, without it, as a slice of the lent numbers; none of them if that is no part of the file, or the file is refused: a rule of the project, which fixes the slice.
pub fn spans_of<'a>(spans: &'a [i32], first: u64, end: u64) -> &'a [i32]
    ensures { SpansSays spans.now first «end» result.now }
{
    match Almanac::try_from(spans) {
        Ok(almanac) => almanac.part(first, end),
        Err(_) => &[],
    }
}
