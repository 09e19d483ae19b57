// A record's thirty fields as a line of a semicolon list, and a line's fields as a record, byte for byte: see specs/.
#![tactic(auto)]

// On which side a field that comes in short is padded; one that is kept goes out untrimmed and is padded on the right.
#[derive(Clone, Copy)]
pub enum Side {
    Left,
    Right,
    Kept,
}
