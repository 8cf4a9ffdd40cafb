// The first tick, heights, sightings, parts of the file.
ghost use Rattle.std.specs.Prelude.{◌≡◌, ℕ, suc, ◌+◌, ◌*◌, ◌<◌, Some, None, Ok, Err};
ghost use Rattle.bridge.specs.Answers.{FirstSays, GapSays, HeightSays, NearSays, PartSays, SightingSays};
ghost use Rattle.height.specs.Almanacs.{AllMeet, Meets};
ghost use Rattle.height.specs.Files.{Good, almanac_in, first_beyond};
ghost use Rattle.height.specs.declared.refusal.Refusal.TheVariants.{File};

use super::answer::{FirstAnswer, GapAnswer, HeightAnswer, NearAnswer, Part, SightingAnswer};
use super::refuse::tell;
use almanac::entry::{first_in, height_in, near_of, sighting_of, tick_of};
use height::file::View;
use height::join::first_gap;
use height::refusal::Refusal;
use height::source::Source;

// From a tick on, the first one in which a body is above a line (0), rises (1) or sets (2): C asks by a number.
#[unsafe(no_mangle)]
pub extern "C" fn pocketmica_first(spans: &[i32], line: i64, from: u64, what: u64) -> FirstAnswer
    ensures { FirstSays spans.now line «from» what result }
{
    tell(first_in(spans, line, from, what))
}

// The height in a tick, in whole thousandths.
#[unsafe(no_mangle)]
pub extern "C" fn pocketmica_height(spans: &[i32], tick: u64) -> HeightAnswer
    ensures { HeightSays spans.now tick result }
{
    tell(height_in(spans, tick))
}

// The height in a tick as a binary64 number, and how far off that is at most.
#[unsafe(no_mangle)]
pub extern "C" fn pocketmica_near(spans: &[i32], tick: u64) -> NearAnswer
    ensures { NearSays spans.now tick result }
{
    tell(near_of(spans, tick))
}

// Whether a body is seen over a line in a tick, and how high over it.
#[unsafe(no_mangle)]
pub extern "C" fn pocketmica_sighting(spans: &[i32], line: i64, tick: u64) -> SightingAnswer
    ensures { SightingSays spans.now line tick result }
{
    tell(sighting_of(spans, line, tick))
}

// The spans from one up to another, without it, by the place and the number of their numbers.
#[unsafe(no_mangle)]
pub extern "C" fn pocketmica_spans(spans: &[i32], first: u64, end: u64) -> Part
    ensures { PartSays spans.now first «end» result }
{
    match View::try_from(spans) {
        Ok(view) if first < end && end <= view.spans() => Part {
            place: 4 * first,
            length: 4 * (end - first),
        },
        _ => Part::default(),
    }
}

// The first span of a file that does not meet the next one.
fn gap_in(spans: &[i32]) -> Result<Option<u64>, Refusal>
    ensures { elim result [ Ok o ↦ Good spans.now × elim o [ None ↦ AllMeet (almanac_in 1024 spans.now) | Some i ↦ (suc i < (almanac_in 1024 spans.now).spans) × (Meets (almanac_in 1024 spans.now) i → ⊥) × ((j : ℕ) → j < i → Meets (almanac_in 1024 spans.now) j) ] | Err e ↦ (Good spans.now → ⊥) × (e ≡ File (first_beyond spans.now)) ] }
{
    Ok(first_gap(&View::try_from(spans)?))
}

// The first span that does not meet the next one.
#[unsafe(no_mangle)]
pub extern "C" fn pocketmica_gap(spans: &[i32]) -> GapAnswer
    ensures { GapSays spans.now result }
{
    tell(gap_in(spans))
}

// A tick of the file, from a span and a tick in it.
#[unsafe(no_mangle)]
pub extern "C" fn pocketmica_tick(span: u16, tick: u16) -> u64
    ensures { result ≡ 1024 * span + tick }
{
    tick_of(span, tick)
}
