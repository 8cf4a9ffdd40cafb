// The front door: the entries over lent numbers, and the almanac over a file that was checked once.
//
//   entry     the entries over numbers: the first tick, a height, a sighting, a part of the file, a tick's number
//   almanac   the almanac over a checked file
//   ask       what it answers with counts and places: the first tick, rounded heights, listings
//   read      what it answers to reckon on with: exact heights, binary64 numbers, sightings, parts
#![tactic(auto)]

pub mod almanac;
pub mod ask;
pub mod entry;
pub mod read;
