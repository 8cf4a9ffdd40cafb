// A whole run of the program, from text to text, line by line.
//
//   line      a line of text without its end, and what kind of line it is
//   kind      the kinds of lines
//   numbers   the numbers of a line
//   stage     how far a session has come
//   session   what a session holds
//   reply     the answer to an order
//   step      what a line of text leads to
//   run       a whole run
//   theorems  what is promised of it
#![tactic(auto)]

pub mod kind;
pub mod line;
pub mod numbers;
pub mod reply;
pub mod run;
pub mod session;
pub mod stage;
pub mod step;
pub mod theorems;
