// One column at a time: sets of bytes, blank, and text.
#![tactic(auto)]

pub mod sets;
pub mod texts;
