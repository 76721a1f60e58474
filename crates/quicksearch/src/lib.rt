#![tactic(auto)]

// The search for the first name of a net whose walk meets more than 64 names.
mod agenda;
mod bounds;
mod memo;
pub mod overfull;
mod passing;
mod search;
