// The library for callers in C and Rust, its calls on lines: functions on numbers and lent bytes, under names with the prefix `desk_`.
#![tactic(auto)]

pub mod carriages;
pub mod listing;
pub mod reasons;
