// A part of the lent file.
ghost use Rattle.reading.specs.Parts.{PartOf};

use height::file::View;
use height::source::Source;
use height::span::Span;

// The spans from one up to another, without it, as a slice of the file; none of it if the first is beyond the other, or that one beyond the file. The project asks for a slice, so there is no None.
pub fn part<'a>(view: View<'a>, first: u64, end: u64) -> &'a [i32]
    ensures { PartOf view.entry.numbers.now first «end» result.now }
{
    let numbers = view.numbers();
    let inside = first <= end && end <= view.spans();
    if inside {
        &numbers[Span::NUMBERS * first as usize..Span::NUMBERS * end as usize]
    } else {
        &numbers[0..0]
    }
}
