// Tests of the readings. What they expect was worked out apart from the program, in exact fractions.
#![tactic(auto)]

#[cfg(test)]
mod cursor;
#[cfg(test)]
mod near;
#[cfg(test)]
mod part;
#[cfg(test)]
mod sighting;
#[cfg(test)]
mod three;
