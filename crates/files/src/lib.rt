// Files of records: their length, and their records.
#![tactic(auto)]

pub mod lengths;
