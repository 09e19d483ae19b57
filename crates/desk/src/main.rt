// The desk: reads a filing file from standard input and prints its report.
#![tactic(auto)]

use intake::{answer_input, room};
use reports::write_report;

// Prints a file's report, and answers whether all of it could be written.
fn print_report(file: &[u8]) -> bool {
    let mut lines = room::<12288>();
    let end = write_report(file, &mut lines);
    io::write_all(1, &lines[..end])
}

// Reads a file, and writes all of its report, or says what it could not do.
fn main(rt: HostRuntime) {
    answer_input(&mut rt.stdin(), print_report);
}
