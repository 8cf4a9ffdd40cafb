// In how many ticks a body is above a line: every tick is gone through, span by span, by three additions each.
ghost use Rattle.std.specs.Prelude.{◌≡◌, ◌/◌, ◌<◌, length, Ok, Err};
ghost use Rattle.almanac.specs.Refuses.{Refuses, Taken};
ghost use Rattle.bridge.specs.Counts.{CountSays, count_to, in_span};
ghost use Rattle.crossing.specs.Above.{above, over};
ghost use Rattle.height.specs.Almanacs.{ticks};
ghost use Rattle.height.specs.Files.{almanac_in};
ghost use Rattle.height.specs.Views.{almanac_of};

use super::answer::CountAnswer;
use super::refuse::tell;
use height::file::View;
use height::line::Line;
use height::refusal::Refusal;
use height::source::Source;
use reading::stretch::Stretch;

// In how many ticks of a span the height, times 2^30, is not below a level. The range over spans says that there is such a span.
fn ticks_in(view: View, span: u64, level: i64) -> u64
    requires { span < length view.numbers.now / 4 }
    ensures { result ≡ in_span (over (almanac_of view.entry) level) span }
{
    Stretch::new(view, span)
        .map(|moment| u64::from(moment.height >= level))
        .sum()
}

// In how many ticks of a file the height, times 2^30, is not below a level.
fn ticks_over(view: View, level: i64) -> u64
    ensures { result ≡ count_to (over (almanac_of view.entry) level) (ticks (almanac_of view.entry)) }
{
    (0..view.spans())
        .map(|span| ticks_in(view, span, level))
        .sum()
}

// In how many ticks a body is above a line, or why that is refused.
fn count_in(spans: &[i32], line: i64) -> Result<u64, Refusal>
    ensures { elim result [ Ok n ↦ Taken spans.now line 0 0 × (n ≡ count_to (above (almanac_in 1024 spans.now) line) (ticks (almanac_in 1024 spans.now))) | Err e ↦ Refuses spans.now line 0 0 e ] }
{
    let view = View::try_from(spans)?;
    let line = Line::try_from(line)?;
    Ok(ticks_over(view, line.level()))
}

// In how many ticks a body is above a line.
#[unsafe(no_mangle)]
pub extern "C" fn pocketmica_count(spans: &[i32], line: i64) -> CountAnswer
    ensures { CountSays spans.now line result }
{
    tell(count_in(spans, line))
}
