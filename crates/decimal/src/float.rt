// The binary64 number nearest to a whole number over a power of two, written exactly, and half of
// what its last place is worth.
ghost use Rattle.std.specs.Prelude.{◌^◌, ◌<◌, ◌≤◌, ◌+◌, Some, unsigned_abs};
ghost use Rattle.decimal.specs.Figures.{error_text, float_text};

use crate::figures::{put_exact, put_fraction};
use binary::{DIGITS, leading_one, rounded};
use std::fmt;
use std::fmt::{Display, Formatter, Write};

// The `f64` nearest to numerator / 2^PLACES.
#[derive(Clone, Copy)]
pub struct Nearest<const PLACES: u32> {
    pub numerator: i128,
    pub ghost places: { PLACES ≤ 63 },
    pub ghost size: { unsigned_abs numerator < 2 ^ (PLACES + 63) },
}

impl<const PLACES: u32> Display for Nearest<PLACES> {
    ghost output = { λ n. Some (float_text PLACES n.numerator) };

    fn fmt<W: Write>(&self, f: &mut Formatter<W>) -> fmt::Result {
        put_exact(f, rounded(self.numerator), PLACES)
    }
}

// Half of what the last place of an `f64` as large as numerator / 2^PLACES is worth. A type of its own, since a type has one text.
#[derive(Clone, Copy)]
pub struct HalfPlace<const PLACES: u32> {
    pub numerator: i128,
    pub ghost places: { PLACES ≤ 63 },
    pub ghost size: { unsigned_abs numerator < 2 ^ (PLACES + 63) },
}

impl<const PLACES: u32> Display for HalfPlace<PLACES> {
    ghost output = { λ n. Some (error_text PLACES n.numerator) };

    fn fmt<W: Write>(&self, f: &mut Formatter<W>) -> fmt::Result {
        put_fraction(
            f,
            leading_one(self.numerator.unsigned_abs()),
            PLACES + DIGITS,
        )
    }
}
