// Binary64 numbers as text, in decimal figures, with nothing rounded.
//
//   figures    a whole number over a power of two, written exactly
//   float      the nearest binary64 number, and half of its last place
//   theorems   what holds of the texts
#![tactic(auto)]

mod figures;
mod float;
pub mod theorems;

pub use float::{HalfPlace, Nearest};
