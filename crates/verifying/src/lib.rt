// Whether a sheet that somebody else wrote is the one that its file is judged to.
#![tactic(auto)]

pub mod comparing;
pub mod verifying;
