// What can be asked for, and what a listing holds.
ghost use Rattle.crossing.specs.Events.{IsEvent, event_number};
ghost use Rattle.crossing.specs.Texts.{crossing_text, event_text};
ghost use Rattle.std.specs.Prelude.{◌≡◌, Some};

use height::refusal::Refusal;
use std::fmt;

#[derive(Clone, Copy, PartialEq, Eq, Debug)]
pub enum Event {
    // It is above the line.
    Above,
    // It is above, and was not in the tick before.
    Rise,
    // It is not above, and was in the tick before.
    Set,
}

// The event of a number, if it has one.
impl TryFrom<u64> for Event {
    type Error = Refusal;

    ghost try_from_gives = { IsEvent };

    fn try_from(number: u64) -> Result<Event, Refusal> {
        match number {
            0 => Ok(Event::Above),
            1 => Ok(Event::Rise),
            2 => Ok(Event::Set),
            _ => Err(Refusal::Asked(number)),
        }
    }
}

impl From<Event> for u64 {
    ghost from_gives = { λ event number. number ≡ event_number event };

    fn from(event: Event) -> u64 {
        match event {
            Event::Above => 0,
            Event::Rise => 1,
            Event::Set => 2,
        }
    }
}

impl fmt::Display for Event {
    ghost output = { λ e. Some (event_text e) };

    fn fmt<W: fmt::Write>(&self, f: &mut fmt::Formatter<W>) -> fmt::Result {
        f.write_str(match self {
            Event::Above => "above",
            Event::Rise => "rise",
            Event::Set => "set",
        })
    }
}

// A rising or a setting, and its tick.
#[derive(Clone, Copy, PartialEq, Eq, Debug)]
pub struct Crossing {
    pub tick: u64,
    // A rising; else it is a setting. It is the value that the condition takes, the same that a search looks for, and no kind with a number.
    pub rises: bool,
}

impl fmt::Display for Crossing {
    ghost output = { λ c. Some (crossing_text c) };

    fn fmt<W: fmt::Write>(&self, f: &mut fmt::Formatter<W>) -> fmt::Result {
        let word = if self.rises { "rise" } else { "set" };
        write!(f, "{word} {}", self.tick)
    }
}
