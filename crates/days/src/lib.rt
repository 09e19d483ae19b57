// Dates in their columns, of days that the calendar has.
#![tactic(auto)]

pub mod dates;
