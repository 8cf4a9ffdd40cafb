// Orders and answers as text.
//
//   order     what a line of text asks for, read
//   written   the same, written
//   answer    answers and refusals, written
//   theorems  that what is written is read as it was
#![tactic(auto)]

pub mod answer;
pub mod order;
pub mod theorems;
pub mod written;
