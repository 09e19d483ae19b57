// A station's record of 219 bytes, and the typed station that it says.
#![tactic(auto)]

pub mod typed;
