// The almanac for callers in other languages: exported functions over lent numbers, which ask nothing of their callers.
// Each that is lent a file checks it first. What it answers has the number and the place of a refusal; the number 0 says that nothing was refused.
// Only a Part has no such number: it is empty where the file or the spans are not taken. A tick from a span and a tick in it needs no file, and is never refused.
//
//   answer   what is handed out
//   refuse   a refusal as two numbers
//   ask      the first tick, heights, sightings, parts of the file
//   table    all risings and settings, written into lent room
//   highest  in which tick a body is highest
//   count    in how many ticks a body is above a line
#![tactic(auto)]

pub mod answer;
pub mod ask;
pub mod count;
pub mod highest;
pub mod refuse;
pub mod table;
