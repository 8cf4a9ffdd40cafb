// A whole number to the binary digits that a binary64 number has.
ghost use Rattle.std.specs.Prelude.{◌≡◌, ◌*◌, ◌^◌, ◌<◌, ◌≤◌, ℕ, unsigned_abs};
ghost use Prim.Native.Nat.{compare};
ghost use Rattle.std.specs.Float.Ieee.{size, nearest};
ghost use Rattle.binary.specs.Nearest.{leading, RoundedOver, leading_one};

use std::cmp::Ordering;

// How many binary digits a binary64 number has.
pub const DIGITS: u32 = 53;

// How many binary digits n has.
fn digits_in(n: u128) -> u32
    ensures { result ≡ size n }
{
    u128::BITS - n.leading_zeros()
}

// The leading one of n: the largest power of two that is at most n, and 0 for 0.
pub fn leading_one(n: u128) -> u128
    ensures { result ≡ leading_one (size n) }
{
    let digits = digits_in(n);
    if digits == 0 { 0 } else { 1 << (digits - 1) }
}

// How many times `unit` is nearest to `whole` times `unit` and a `rest`: `whole` times, or once
// more. Where both are as near it is the even one.
fn nearest_multiple(whole: u128, rest: u128, unit: u128) -> u128
    requires { (whole < 2 ^ 127) × (rest < 2 ^ 127) }
    ensures { result ≡ nearest whole (compare (rest * 2) unit) }
{
    match (rest * 2).cmp(&unit) {
        Ordering::Less => whole,
        Ordering::Equal => whole + whole % 2,
        Ordering::Greater => whole + 1,
    }
}

// n to the leading digits that a binary64 number has room for: the nearest number of so many.
fn leading_digits(n: u128) -> u128
    requires { n < 2 ^ 126 }
    ensures { result ≡ leading n }
{
    let drop = digits_in(n).saturating_sub(DIGITS);
    let unit = 1u128 << drop;
    nearest_multiple(n >> drop, n & (unit - 1), unit) * unit
}

// The same of an integer, which keeps its sign: over any power of two up to 2^500 it is the nearest
// `f64` to h over that power.
pub fn rounded(h: i128) -> i128
    requires { unsigned_abs h < 2 ^ 126 }
    ensures { (places : ℕ) → places ≤ 500 → RoundedOver places h result }
{
    let size = leading_digits(h.unsigned_abs()) as i128;
    if h < 0 { -size } else { size }
}
