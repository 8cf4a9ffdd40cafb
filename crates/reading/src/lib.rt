// What is read off an almanac to reckon on with, at 1,024 ticks a span.
//
//   answer       what is answered
//   near         a height as the nearest binary64 number, with how far off it is at most
//   sighting     whether a body is seen over a line, and how high over it
//   part         the spans from one up to another, as a part of the lent file
//   differences  a height that goes on from tick to tick by three additions
//   cursor       a cursor over the ticks of a lent file
//   steps        its steps, one after the other or set to any tick
//   stretch      the ticks of one span
//   heights      all heights of a file
//   theorems     the promises that hold of all of them, each on a function
#![tactic(auto)]

pub mod answer;
pub mod cursor;
pub mod differences;
pub mod heights;
pub mod near;
pub mod part;
pub mod sighting;
pub mod steps;
pub mod stretch;
pub mod theorems;
