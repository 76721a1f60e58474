#![tactic(auto)]

// A net's table from text, one frame a line.
pub mod fault;
pub mod laws;
pub mod load;
