// Sheets of any form and of our own, and what a sheet says.
#![tactic(auto)]

pub mod form;
pub mod readers;
