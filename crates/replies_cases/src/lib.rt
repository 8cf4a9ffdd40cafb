// Tests of answers that are read back, and of what is written. What they expect was written down from docs/ALMANAC.md, and not taken from the program.
#![tactic(auto)]

#[cfg(test)]
mod lines;
#[cfg(test)]
mod written;
