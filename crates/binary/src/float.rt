// The nearest binary64 number to a whole number over a power of two, and half of its last place.
ghost use Rattle.std.specs.Prelude.{◌≡◌, ◌^◌, ◌<◌, ◌≤◌, false, pos, unsigned_abs};
ghost use Rattle.std.specs.Float.{binary64, fin};
ghost use Rattle.std.specs.Float.Ieee.{of_int};
ghost use Rattle.binary.specs.Nearest.{nearest_over, half_place};
ghost use Rattle.binary.specs.Promise.{Within};

use crate::digits::{DIGITS, leading_one};

// An `f64` has 52 bits behind its leading one, and above them its exponent plus 1023.
const FRACTION_BITS: u32 = 52;

const BIAS: u32 = 1023;

// Where a number of 80 bits is cut into two parts that an `f64` holds exactly, and the lower part.
const LOW_BITS: u32 = 40;

const LOW_MASK: u128 = 0xff_ffff_ffff;

// 2^exponent, which is an `f64` exactly.
fn power(exponent: u32) -> f64
    requires { exponent ≤ 1023 }
    ensures { result ≡ fin false 1 (pos exponent) }
{
    f64::from_bits(((exponent + BIAS) as u64) << FRACTION_BITS)
}

// The `f64` nearest to n. Both parts of n have 40 bits at most, which an `f64` holds, and moving
// one of them up by 40 bits loses none: n is rounded once, where the parts are added.
fn nearest_u128(n: u128) -> f64
    requires { n < 2 ^ 80 }
    ensures { result ≡ of_int binary64 (pos n) }
{
    let high = (n >> LOW_BITS) as u64;
    let low = (n & LOW_MASK) as u64;
    high as f64 * power(LOW_BITS) + low as f64
}

// The `f64` nearest to h. The bound stands in four contracts: a struct for a number within it would be taken apart by the first line of each.
fn nearest_i128(h: i128) -> f64
    requires { unsigned_abs h < 2 ^ 80 }
    ensures { result ≡ of_int binary64 h }
{
    let size = nearest_u128(h.unsigned_abs());
    if h < 0 { -size } else { size }
}

// The `f64` nearest to h / 2^PLACES. Only the conversion rounds: the division by a power of two is
// exact.
pub fn nearest<const PLACES: u32>(h: i128) -> f64
    requires places { PLACES ≤ 500 }
    requires size { unsigned_abs h < 2 ^ 80 }
    ensures { result ≡ nearest_over PLACES h }
{
    nearest_i128(h) / power(PLACES)
}

// Half of what the last place of an `f64` as large as h / 2^PLACES is worth: h / 2^PLACES is at most
// so far off its nearest `f64`.
pub fn half_place<const PLACES: u32>(h: i128) -> f64
    requires places { PLACES ≤ 500 }
    requires size { unsigned_abs h < 2 ^ 80 }
    ensures value { result ≡ half_place PLACES h }
    ensures within { Within (nearest_over PLACES h) PLACES h result }
{
    nearest_u128(leading_one(h.unsigned_abs())) / power(PLACES + DIGITS)
}
