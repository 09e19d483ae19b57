// What every program prints with: pieces of a line, and the lines that reports, lists and explanations share.
#![tactic(auto)]

pub mod lines;
pub mod pieces;
