// Numbers to reckon on with, and a part of the file.
ghost use Rattle.almanac.specs.Doors.{numbers_of};
ghost use Rattle.almanac.specs.Refuses.{LineTaken, Refuses, TickTaken};
ghost use Rattle.height.specs.Almanacs.{height_at};
ghost use Rattle.height.specs.Files.{almanac_in};
ghost use Rattle.reading.specs.Parts.{PartOf};
ghost use Rattle.reading.specs.Readings.{Nears, Sights, above_line};
ghost use Rattle.std.specs.Prelude.{◌≡◌, ◌^◌, ◌<◌, pos, Ok, Err, unsigned_abs};

use super::almanac::Almanac;
use height::line::Line;
use height::meter::Meter;
use height::refusal::Refusal;
use reading::answer::{Near, Sighting};
use reading::near::near_at;
use reading::part::part;
use reading::sighting::{above_at, sighting_at};

impl<'a> Almanac<'a> {
    // The height in a tick, exact: times 2^30.
    pub fn exact(&self, tick: u64) -> Result<i64, Refusal>
        ensures { elim result [ Ok h ↦ TickTaken (numbers_of self.now) tick × (h ≡ height_at (almanac_in 1024 (numbers_of self.now)) tick) | Err e ↦ Refuses (numbers_of self.now) (pos 0) tick 0 e ] }
    {
        Ok(self.at(tick)?.height(&mut Meter::new()))
    }

    // How far the height in a tick is above a line, exact: times 2^30.
    pub fn exact_above(&self, line: i64, tick: u64) -> Result<i64, Refusal>
        ensures { elim result [ Ok h ↦ LineTaken line × TickTaken (numbers_of self.now) tick × (h ≡ above_line (height_at (almanac_in 1024 (numbers_of self.now)) tick) line) × (unsigned_abs h < 2 ^ 59) | Err e ↦ Refuses (numbers_of self.now) line tick 0 e ] }
    {
        let line = Line::try_from(line)?;
        Ok(above_at(&self.at(tick)?, line))
    }

    // The height in a tick as a binary64 number, and how far off that is at most.
    pub fn near(&self, tick: u64) -> Result<Near, Refusal>
        ensures { elim result [ Ok x ↦ TickTaken (numbers_of self.now) tick × Nears (height_at (almanac_in 1024 (numbers_of self.now)) tick) x | Err e ↦ Refuses (numbers_of self.now) (pos 0) tick 0 e ] }
    {
        Ok(near_at(&self.at(tick)?))
    }

    // Whether the body is seen over a line in a tick, and how high over it.
    pub fn sighting(&self, line: i64, tick: u64) -> Result<Sighting, Refusal>
        ensures { elim result [ Ok x ↦ LineTaken line × TickTaken (numbers_of self.now) tick × Sights (height_at (almanac_in 1024 (numbers_of self.now)) tick) line x | Err e ↦ Refuses (numbers_of self.now) line tick 0 e ] }
    {
        let line = Line::try_from(line)?;
        Ok(sighting_at(&self.at(tick)?, line))
    }

    // The spans from one up to another, without it, as a slice of the file.
    pub fn part(&self, first: u64, end: u64) -> &'a [i32]
        ensures { PartOf (numbers_of self.now) first «end» result.now }
    {
        part(self.view, first, end)
    }
}
