#![tactic(auto)]

// A whole space turned into a flat table of records, and two spaces compared at every address.
pub mod compare;
mod count;
pub mod flat;
mod names;
mod stretch;
mod write;
