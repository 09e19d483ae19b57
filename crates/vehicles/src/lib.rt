// UIC vehicle numbers: twelve digits of which the last checks the others. The names that hold one are defined here, and made and read in `vehicle_names`.
#![tactic(auto)]

pub mod digits;
