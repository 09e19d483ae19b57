// Chains: the first station that bears a key, found in one pass.
#![tactic(auto)]

pub mod chaining;
pub mod keys;
