#![tactic(auto)]

// Hexadecimal text: digits, numbers of a fixed width, and the rows of a flat table.
pub mod digit;
pub mod laws;
pub mod number;
pub mod row;
#[cfg(test)]
mod tests;
