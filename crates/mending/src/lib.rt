// The rows of a sheet mended beside a record that is replaced.
#![tactic(auto)]

pub mod rows;
