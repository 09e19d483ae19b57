// The day's saves run again from the morning's list: the list and the sheet that they leave, and what is told of them.
#![tactic(auto)]

pub mod running;
