// A whole number over a power of two, written in decimal figures: functions, since two types print by them.
ghost use Rattle.std.specs.Prelude.{◌/◌, ◌^◌, ◌<◌, ◌≤◌, unsigned_abs};
ghost use Rattle.std.specs.Fmt.{WritesOnOk};
ghost use Rattle.decimal.specs.Figures.{exact_text, figures, part_text};

use std::fmt;
use std::fmt::{Formatter, Write};

// The figures behind the point of part / 2^places. Ten times rest / 2^(left + 1) is five times rest
// over 2^left: its whole part is the next figure, and what is left over is the next rest.
fn put_figures<W: Write>(f: &mut Formatter<W>, part: u128, places: u32) -> fmt::Result
    requires { (part < 2 ^ places) × (places ≤ 125) }
    ensures { WritesOnOk W.write_str_gives f.old result (figures places part) f.new }
{
    let mut rest = part;
    for left in (0..places).rev() {
        if rest == 0 {
            break;
        }
        let unit = 1u128 << left;
        let tenfold = rest * 5;
        let figure = (tenfold / unit) as u64;
        rest = tenfold % unit;
        write!(f, "{figure}")?;
    }
    Ok(())
}

// size / 2^places: the whole part, and, if there is a rest, a point and the figures behind it. A struct for the pair would be made and taken apart once in each of the three functions.
pub(crate) fn put_fraction<W: Write>(f: &mut Formatter<W>, size: u128, places: u32) -> fmt::Result
    requires { (places ≤ 125) × (size / 2 ^ places < 2 ^ 64) }
    ensures { WritesOnOk W.write_str_gives f.old result (part_text places size) f.new }
{
    let unit = 1u128 << places;
    let whole = (size / unit) as u64;
    let part = size % unit;
    write!(f, "{whole}")?;
    if part == 0 {
        return Ok(());
    }
    write!(f, ".")?;
    put_figures(f, part, places)
}

// h / 2^places, with a minus if it is below zero.
pub(crate) fn put_exact<W: Write>(f: &mut Formatter<W>, h: i128, places: u32) -> fmt::Result
    requires { (places ≤ 125) × (unsigned_abs h / 2 ^ places < 2 ^ 64) }
    ensures { WritesOnOk W.write_str_gives f.old result (exact_text places h) f.new }
{
    if h < 0 {
        write!(f, "-")?;
    }
    put_fraction(f, h.unsigned_abs(), places)
}
