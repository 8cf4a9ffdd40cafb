// A whole number over a power of two as the nearest binary64 number, with how far off that is.
//
// For h / 2^PLACES, with at most 500 places and an h below 2^80 in size:
// `nearest` rounds the fraction once, to the nearest `f64`;
// `rounded` is that `f64` as a whole number over the same power of two, whatever the power is, and
// for an h below 2^126;
// `half_place` bounds how far the fraction is off it, and is the `leading_one` of the size of h
// over 2^(PLACES + 53).
// `theorems` has what holds of all of them, in exact numbers.
#![tactic(auto)]

mod digits;
mod float;
pub mod theorems;

pub use digits::{DIGITS, leading_one, rounded};
pub use float::{half_place, nearest};
