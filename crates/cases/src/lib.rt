#![tactic(auto)]

// Worked cases of the crates below, as tests; the expected values are worked out by hand.
#[cfg(test)]
mod boards;
#[cfg(test)]
mod bottoms;
#[cfg(test)]
mod lines;
#[cfg(test)]
mod ordered;
#[cfg(test)]
mod runs;
#[cfg(test)]
mod stacks;
#[cfg(test)]
mod tables;
#[cfg(test)]
mod texts;
#[cfg(test)]
mod worked;
