// The one search: the first tick in which a condition is as wanted, found without evaluating every tick.
// It knows nothing of heights. It asks a signal whether the condition holds in a tick, and up to which tick it surely stays the same.
//
//   signal  what can be searched: a condition over a row of ticks
//   first   the first tick in which it is as wanted, becomes so, or has an event
//   walk    its risings and settings, one after the other
//   list    all of them
#![tactic(auto)]

pub mod first;
pub mod list;
pub mod signal;
pub mod walk;
