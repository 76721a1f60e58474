#![tactic(auto)]

// Calls fed to a stack of layers one after another; the theorem on whole runs of them stands on `serve`.
pub mod call;
pub mod run;
