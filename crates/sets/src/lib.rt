#![tactic(auto)]

pub mod laws;
pub mod member;
pub mod order;
pub mod sorted;
