#![tactic(auto)]

// The walk from a name of a net: what it notes, and how far up the same walk goes.
pub mod laws;
pub mod nodes;
pub mod notes;
mod range;
pub mod walking;
