#![tactic(auto)]

// What a net keeps in memory: valid blocks in the order in which they came, overlays, the entry.
pub mod alike;
pub mod checks;
pub mod destination;
pub mod distinct;
pub mod edits;
pub mod making;
pub mod stored;
