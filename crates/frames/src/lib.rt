#![tactic(auto)]

// Frames, and the lines of hexadecimal text that they are read from.
pub mod frame;
pub mod kind;
pub mod laws;
pub mod line;
pub mod read;
pub mod reader;
pub mod state;
