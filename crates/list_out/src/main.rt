// Lists out: reads a filing file from standard input and prints its stations as lines of a semicolon list.
#![tactic(auto)]

use intake::{answer_input, room};
use listing::write_list;

// Prints a file's list, and answers whether all of it could be written.
fn print_list(file: &[u8]) -> bool {
    let mut lines = room::<74202>();
    let end = write_list(file, &mut lines);
    io::write_all(1, &lines[..end])
}

// Reads a file, and writes all of its list, or says what it could not do.
fn main(rt: HostRuntime) {
    answer_input(&mut rt.stdin(), print_list);
}
