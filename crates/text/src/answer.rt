// Answers and refusals, written at the end of a text.
// These are functions over a Display: what is promised is a line of output, so an answer is put at the end of a text and ends its line.
ghost use Rattle.std.specs.Prelude.{◌≡◌, ◌++◌, string_bytes, codes};
ghost use Rattle.decimal.specs.Figures.{float_text};
ghost use Rattle.text.specs.Answers.{Appends, height_bytes, near_bytes, part_bytes, refusal_bytes, sight_bytes, table_bytes, tick_bytes};

use crossing::event::Crossing;
use decimal::{HalfPlace, Nearest};
use height::refusal::Refusal;
use std::alloc::AllocError;
use std::fmt::Write;

// A tick, or that there is none.
pub fn put_tick(out: &mut String, tick: Option<u64>) -> Result<(), AllocError>
    ensures { Appends (string_bytes out.old) (tick_bytes tick) (string_bytes out.new) result }
{
    match tick {
        Some(t) => writeln!(out, "{t}"),
        None => writeln!(out, "none"),
    }
}

// A height in whole thousandths.
pub fn put_height(out: &mut String, height: i64) -> Result<(), AllocError>
    ensures { Appends (string_bytes out.old) (height_bytes height) (string_bytes out.new) result }
{
    writeln!(out, "{height}")
}

// A height that is kept times 2^30, as the nearest number of binary64, and how far off that is at most.
pub fn put_near(out: &mut String, height: i64) -> Result<(), AllocError>
    ensures { Appends (string_bytes out.old) (near_bytes height) (string_bytes out.new) result }
{
    let numerator = height as i128;
    let number = Nearest::<30> { numerator };
    let error = HalfPlace::<30> { numerator };
    writeln!(out, "{number} {error}")
}

// That the body is seen, so far above the line.
fn put_seen(out: &mut String, above: i64) -> Result<(), AllocError>
    ensures { Appends (string_bytes out.old) (codes "seen " ++ (float_text 30 above ++ codes "\n")) (string_bytes out.new) result }
{
    let number = Nearest::<30> {
        numerator: above as i128,
    };
    writeln!(out, "seen {number}")
}

// How far above the line the body is, times 2^30: that it is seen, or hidden, by the sign. One number says both, so there is no flag beside it.
pub fn put_sighting(out: &mut String, above: i64) -> Result<(), AllocError>
    ensures { Appends (string_bytes out.old) (sight_bytes above) (string_bytes out.new) result }
{
    if above >= 0 {
        put_seen(out, above)
    } else {
        writeln!(out, "hidden")
    }
}

// All risings and settings of a row of ticks, a line for each, or that there is none.
pub fn put_table(out: &mut String, crossings: &[Crossing]) -> Result<(), AllocError>
    ensures { Appends (string_bytes out.old) (table_bytes crossings.now) (string_bytes out.new) result }
{
    if crossings.is_empty() {
        return put_tick(out, None);
    }
    for crossing in crossings {
        writeln!(out, "{crossing}")?;
    }
    Ok(())
}

// A refusal: its number, its place, and the reason.
pub fn put_refusal(out: &mut String, refusal: Refusal) -> Result<(), AllocError>
    ensures { Appends (string_bytes out.old) (refusal_bytes refusal) (string_bytes out.new) result }
{
    writeln!(out, "{refusal}")
}

// A part of the file, a line for each of its spans, or that there is none.
pub fn put_part(out: &mut String, part: &[i32]) -> Result<(), AllocError>
    ensures { Appends (string_bytes out.old) (part_bytes part.now) (string_bytes out.new) result }
{
    if part.is_empty() {
        return put_tick(out, None);
    }
    let (spans, _) = part.as_chunks::<4>();
    for [a, b, c, d] in spans {
        writeln!(out, "{a} {b} {c} {d}")?;
    }
    Ok(())
}
