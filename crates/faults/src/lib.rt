// Why a line of a list is refused: the marks that it has, for 10, and the first field that is too long, for 11.
#![tactic(auto)]

pub mod long_fields;
pub mod marking;

// The marks of a line: how many semicolons and line feeds it has, and whether a line feed is its last byte.
#[derive(Clone, Copy)]
pub struct Marks {
    pub semicolons: usize,
    pub feeds: usize,
    pub ended: bool,
}

// A field that is longer than its columns: its number from 1, how many bytes it has, and how many it may have; all 0 where there
// is none.
#[derive(Clone, Copy)]
pub struct LongField {
    pub number: usize,
    pub length: usize,
    pub most: usize,
}
