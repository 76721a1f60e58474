#![tactic(auto)]

// The words that every other crate speaks in, and, in specs/, the reference model that their contracts cite.
pub mod blocks;
pub mod faults;
pub mod laws;
pub mod names;
pub mod order;
pub mod ranges;
pub mod records;
