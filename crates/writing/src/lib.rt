#![tactic(auto)]

// What a net keeps, written as lines of frames.
mod line;
pub mod write;
mod writer;
