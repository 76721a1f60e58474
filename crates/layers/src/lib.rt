#![tactic(auto)]

// The layers that stand on another space: a window, and a renaming.
pub mod pairs;
pub mod renaming;
pub mod window;
