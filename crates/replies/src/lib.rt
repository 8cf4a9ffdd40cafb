// The program's answers, read back.
//
//   answer    what a line of output says
//   theorems  that what is written is read as it was
#![tactic(auto)]

pub mod answer;
pub mod theorems;
