// A line split at its marks: what is a line, and where its fields stand.
#![tactic(auto)]

pub mod lines;
pub mod marks;
