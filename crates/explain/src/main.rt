// Explains a filing: reads it from standard input and prints, for each bad row, what is wrong with it.
#![tactic(auto)]

use explaining::write_explanation;
use intake::{answer_input, room};

// Prints a file's explanation, and answers whether all of it could be written.
fn print_explanation(file: &[u8]) -> bool {
    let mut lines = room::<41984>();
    let end = write_explanation(file, &mut lines);
    io::write_all(1, &lines[..end])
}

// Reads a file, and writes all of its explanation, or says what it could not do.
fn main(rt: HostRuntime) {
    answer_input(&mut rt.stdin(), print_explanation);
}
