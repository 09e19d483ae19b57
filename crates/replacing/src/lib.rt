// Replacing a record, and mending the sheet beside it.
#![tactic(auto)]

pub mod records;
