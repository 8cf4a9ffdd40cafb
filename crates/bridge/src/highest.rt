// In which tick a body is highest: a cursor goes through every tick.
ghost use Rattle.bridge.specs.Peaks.{HighestSays, Peaked};
ghost use Rattle.height.specs.Almanacs.{ticks as ticks_of};
ghost use Rattle.height.specs.Views.{almanac_of};
ghost use Rattle.height.specs.Files.{Good, almanac_in, first_beyond};
ghost use Rattle.height.specs.declared.refusal.Refusal.TheVariants.{File};
ghost use Rattle.std.specs.Prelude.{◌≡◌, ◌≤ℤ◌, ◌<ℤ◌, Ok, Err};

use super::answer::HighestAnswer;
use super::refuse::tell;
use height::file::View;
use height::meter::Meter;
use height::refusal::Refusal;
use height::source::Source;
use reading::cursor::Cursor;

// A tick, and the height in it, times 2^30: what of a cursor's moment is compared. A `Moment` would have to say of tick 0 also that it begins a span.
#[derive(Clone, Copy)]
pub struct Peak {
    pub tick: u64,
    pub height: i64,
}

// The higher of two ticks; the first one if they are as high.
fn higher(peak: Peak, tick: u64, height: i64) -> Peak
    ensures up { peak.height <ℤ height → result ≡ record { tick = tick; height = height } }
    ensures same { height ≤ℤ peak.height → result ≡ peak }
{
    if height > peak.height {
        Peak { tick, height }
    } else {
        peak
    }
}

// Tick 0.
fn start_of(view: View) -> Peak
    ensures { Peaked (almanac_of view.entry) 0 result }
{
    Peak {
        tick: 0,
        height: view.height(0, &mut Meter::new()),
    }
}

// The first of the highest ticks of a file.
fn peak_of(view: View) -> Peak
    ensures { Peaked (almanac_of view.entry) (ticks_of (almanac_of view.entry)) result }
{
    let mut peak = start_of(view);
    for moment in Cursor::new(view) {
        peak = higher(peak, moment.tick, moment.height);
    }
    peak
}

// The first of the highest ticks, or why the file is refused.
fn highest_in(spans: &[i32]) -> Result<Peak, Refusal>
    ensures { elim result [ Ok p ↦ Good spans.now × Peaked (almanac_in 1024 spans.now) (ticks_of (almanac_in 1024 spans.now)) p | Err e ↦ (Good spans.now → ⊥) × (e ≡ File (first_beyond spans.now)) ] }
{
    Ok(peak_of(View::try_from(spans)?))
}

// The first of the ticks in which a body is highest.
#[unsafe(no_mangle)]
pub extern "C" fn pocketmica_highest(spans: &[i32]) -> HighestAnswer
    ensures { HighestSays spans.now result }
{
    tell(highest_in(spans))
}
