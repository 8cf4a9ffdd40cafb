// Above, rising, setting: what is asked of a body and a line, and the laws that hold of it in every tick.
//
//   event      what can be asked for: that a body is above, rises or sets; and what a listing holds
//   theorems   the promises that hold of every almanac and every line, each on a function
#![tactic(auto)]

pub mod event;
pub mod theorems;
