// The library for callers in C and Rust, its calls on files and sheets: functions on numbers and lent bytes, under names with the prefix `desk_`.
#![tactic(auto)]

pub mod sheets;
