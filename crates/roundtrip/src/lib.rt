#![tactic(auto)]

// What is written of a net and what is loaded of a text are the same: the theorems that tie the two.
pub mod laws;
