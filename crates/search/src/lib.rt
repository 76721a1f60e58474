#![tactic(auto)]

// The search for the first name of a net whose walk meets more than 64 names, walk by walk: the one to read first. The crate quicksearch answers the same, and sooner.
pub mod overfull;
