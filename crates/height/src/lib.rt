// Exact heights: a span and the height of a body in each of its ticks, a file of spans checked once, and what is promised of them.
//
//   span      a span by value: its height in a tick, its slope
//   meter     how many heights were worked out
//   refusal   why something is not taken, with a number and a place
//   line      a line that a body is asked against, within 2^24
//   source    whatever has spans, with its ticks and heights
//   at        a tick of a source
//   round     heights rounded to whole thousandths
//   join      whether the spans meet, and where they do not
//   file      the checked view of a lent file
//   view      the check of a file, and its view
//   theorems  the promises that hold of every span and every file, each on a function
#![tactic(auto)]

pub mod at;
pub mod file;
pub mod join;
pub mod line;
pub mod meter;
pub mod refusal;
pub mod round;
pub mod source;
pub mod span;
pub mod theorems;
pub mod view;
