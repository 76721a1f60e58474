#![tactic(auto)]

// The table of one net: its blocks, overlays and entry, with every walk bounded, and the edits that keep it so.
pub mod edits;
pub mod making;
pub mod table;
