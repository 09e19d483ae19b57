// Operators: reads a filing file from standard input and prints a line for each operator, and the total.
#![tactic(auto)]

use intake::{answer_input, room};
use operator_reports::{LONGEST_PAGE, write_operators};

// Prints a file's page, and answers whether all of it could be written.
fn print_page(file: &[u8]) -> bool {
    let mut lines = room::<LONGEST_PAGE>();
    let end = write_operators(file, &mut lines);
    io::write_all(1, &lines[..end])
}

// Reads a file, and writes all of its page, or says what it could not do.
fn main(rt: HostRuntime) {
    answer_input(&mut rt.stdin(), print_page);
}
