// The library for callers in C and Rust, its calls on single records, and the number of the rules: functions on numbers and lent bytes, under names with the prefix `desk_`.
#![tactic(auto)]

pub mod records;
pub mod rules;
