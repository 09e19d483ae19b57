// A line of any length, gathered part by part: its first bytes are held in a lent buffer, and beside them is kept what tells
// how a line that is longer than the buffer must be refused.
#![tactic(auto)]

pub mod lines;

// What is kept of a line beside its first bytes: how many of them the buffer holds, how many semicolons and line feeds the
// line has, counted no further than matters, and its last byte.
#[derive(Clone, Copy)]
pub struct Gathered {
    pub held: usize,
    pub semicolons: usize,
    pub feeds: usize,
    pub last: u8,
}
