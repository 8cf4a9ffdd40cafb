// The words and numbers of a line of text, as bytes.
//
//   split     a line's words, one after the other
//   number    a word as a whole number
//   theorems  that numbers are read as they were written
#![tactic(auto)]

pub mod number;
pub mod split;
pub mod theorems;
