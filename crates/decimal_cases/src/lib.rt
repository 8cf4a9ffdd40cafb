// Tests of the texts. What they expect was worked out apart from the program, in exact fractions.
#![tactic(auto)]

#[cfg(test)]
mod texts;
