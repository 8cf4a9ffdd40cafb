// A body against a level, as the search asks for it: whether its height is over the level in a tick, and how many more ticks of the span it surely stays so.
//
//   sight     the signal that the search walks over, and how many ticks may be skipped
//   every     the search that evaluates every tick, which tests run against
//   theorems  what the number of skipped ticks is
#![tactic(auto)]

pub mod every;
pub mod sight;
pub mod theorems;
