// What an almanac answers.
ghost use Rattle.std.specs.Prelude.{◌≡◌, ◌≤◌, pos, Ok, Err};
ghost use Rattle.almanac.specs.Answers.{CountsFirst, ListsCrossings, SaysFirst};
ghost use Rattle.almanac.specs.Doors.{numbers_of};
ghost use Rattle.almanac.specs.Refuses.{LineTaken, Refuses, TickTaken};
ghost use Rattle.crossing.specs.Above.{above};
ghost use Rattle.crossing.specs.Events.{event_number, happens};
ghost use Rattle.height.specs.Almanacs.{height_at, rounded as rounded_of, ticks as ticks_of};
ghost use Rattle.height.specs.Files.{Good, almanac_in};
ghost use Rattle.almanac.specs.declared.ask.Fault.TheVariants.{Memory, Refused};
ghost use Rattle.height.specs.declared.refusal.Refusal.TheVariants.{Tick};

use super::almanac::Almanac;
use crossing::event::Event;
use height::at::At;
use height::file::View;
use height::line::Line;
use height::refusal::Refusal;
use height::round::rounded;
use height::source::Source;
use search::first::{Found, first_event};
use search::list::{Listing, crossings};
use sight::sight::Sight;
use std::alloc::{AllocError, Global};

// The first tick, if there is one, and how many heights were worked out to find it.
#[derive(Clone, Copy, PartialEq, Eq, Debug)]
pub struct First {
    pub tick: Option<u64>,
    pub evaluations: u64,
}

// Why there is no listing: the question is refused, or there is no memory for it.
#[derive(Clone, Copy, PartialEq, Eq, Debug)]
pub enum Fault {
    Refused(Refusal),
    Memory(AllocError),
}

impl From<Found> for First {
    ghost from_gives = { λ f r. (r.tick ≡ f.tick) × (r.evaluations ≡ f.evaluations) };

    fn from(found: Found) -> First {
        First {
            tick: found.tick,
            evaluations: found.evaluations,
        }
    }
}

impl From<Refusal> for Fault {
    ghost from_gives = { λ e r. r ≡ Refused e };

    fn from(refusal: Refusal) -> Fault {
        Fault::Refused(refusal)
    }
}

impl From<AllocError> for Fault {
    ghost from_gives = { λ e r. r ≡ Memory e };

    fn from(want: AllocError) -> Fault {
        Fault::Memory(want)
    }
}

// Each contract says for itself which answer is given and when a question is refused: a definition over both would have to be opened to see either.
impl<'a> Almanac<'a> {
    // Over a file that `height::view::check` has taken.
    pub fn new(numbers: &'a [i32]) -> Almanac<'a>
        requires { Good numbers.now }
        ensures { numbers_of result ≡ numbers.now }
    {
        Almanac {
            view: View::new(numbers),
        }
    }

    // How many ticks there are.
    pub fn ticks(&self) -> u64
        ensures value { result ≡ ticks_of (almanac_in 1024 (numbers_of self.now)) }
        ensures few { result ≤ 4194304 }
    {
        self.view.ticks()
    }

    // One of its ticks; any other is refused.
    pub fn at(&self, tick: u64) -> Result<At<'_, View<'a>>, Refusal>
        ensures { elim result [ Ok a ↦ TickTaken (numbers_of self.now) tick × (a.source.now ≡ self.now.view) × (a.tick ≡ tick) | Err e ↦ (TickTaken (numbers_of self.now) tick → ⊥) × (e ≡ Tick (pos tick)) ] }
    {
        At::new(&self.view, tick)
    }

    // The height in a tick, in whole thousandths.
    pub fn height(&self, tick: u64) -> Result<i64, Refusal>
        ensures { elim result [ Ok h ↦ TickTaken (numbers_of self.now) tick × (h ≡ rounded_of 1024 (height_at (almanac_in 1024 (numbers_of self.now)) tick)) | Err e ↦ Refuses (numbers_of self.now) (pos 0) tick 0 e ] }
    {
        Ok(rounded(self.exact(tick)?))
    }

    // From a tick on, the first one in which it is above the line, rises or sets.
    pub fn first(&self, line: i64, event: Event, from: u64) -> Result<First, Refusal>
        ensures { elim result [ Ok a ↦ LineTaken line × TickTaken (numbers_of self.now) «from» × SaysFirst (happens event (above (almanac_in 1024 (numbers_of self.now)) line)) «from» (ticks_of (almanac_in 1024 (numbers_of self.now))) a.tick × CountsFirst (almanac_in 1024 (numbers_of self.now)) line event «from» a.tick a.evaluations | Err e ↦ Refuses (numbers_of self.now) line «from» (event_number event) e ] }
    {
        self.first_over(Line::try_from(line)?, event, from)
    }

    // The same over a line that was taken.
    pub fn first_over(&self, line: Line, event: Event, from: u64) -> Result<First, Refusal>
        ensures { elim result [ Ok a ↦ TickTaken (numbers_of self.now) «from» × SaysFirst (happens event (above (almanac_in 1024 (numbers_of self.now)) line.thousandths)) «from» (ticks_of (almanac_in 1024 (numbers_of self.now))) a.tick × CountsFirst (almanac_in 1024 (numbers_of self.now)) line.thousandths event «from» a.tick a.evaluations | Err e ↦ Refuses (numbers_of self.now) line.thousandths «from» (event_number event) e ] }
    {
        self.at(from)?;
        let sight = Sight::new(self.view, line.level(), self.ticks());
        Ok(first_event(&sight, event, from).into())
    }
}

impl<'a> Almanac<'a> {
    // All risings and settings in the ticks from one up to another, without it, in order of time. It ends with the file if that comes first.
    // The two ticks stand apart, as the project fixes them for the entries and for C.
    pub fn crossings(&self, heap: Global, line: i64, from: u64, end: u64) -> Result<Listing, Fault>
        ensures { elim result [ Ok l ↦ LineTaken line × TickTaken (numbers_of self.now) «from» × ListsCrossings (almanac_in 1024 (numbers_of self.now)) line «from» «end» l.crossings.items l.evaluations | Err f ↦ elim f [ Refused e ↦ Refuses (numbers_of self.now) line «from» 0 e | Memory e ↦ Unit {0} ] ] }
    {
        self.crossings_over(heap, Line::try_from(line)?, from, end)
    }

    // The same over a line that was taken.
    pub fn crossings_over(
        &self,
        heap: Global,
        line: Line,
        from: u64,
        end: u64,
    ) -> Result<Listing, Fault>
        ensures { elim result [ Ok l ↦ TickTaken (numbers_of self.now) «from» × ListsCrossings (almanac_in 1024 (numbers_of self.now)) line.thousandths «from» «end» l.crossings.items l.evaluations | Err f ↦ elim f [ Refused e ↦ Refuses (numbers_of self.now) line.thousandths «from» 0 e | Memory e ↦ Unit {0} ] ] }
    {
        self.at(from)?;
        let sight = Sight::new(self.view, line.level(), end);
        Ok(crossings(heap, &sight, from)?)
    }
}
