// The almanac over a file that was checked once: its answers come with how many heights were worked out, its refusals with their places.
ghost use Rattle.almanac.specs.Doors.{Opens};

use height::file::View;
use height::refusal::Refusal;

#[derive(Clone, Copy)]
pub struct Almanac<'a> {
    pub(super) view: View<'a>,
}

// The almanac over a file, or where the file is refused.
impl<'a> TryFrom<&'a [i32]> for Almanac<'a> {
    type Error = Refusal;

    ghost try_from_gives = { λ numbers r. Opens numbers.now r };

    fn try_from(numbers: &'a [i32]) -> Result<Almanac<'a>, Refusal> {
        Ok(Almanac {
            view: View::try_from(numbers)?,
        })
    }
}
