// Runs record vectors: S is a station's record, H a header's, and h a header's in a file of two stations. Prints for each
// the refusal's number, and with 9 its code.
#![tactic(auto)]

use basics::Refusal;
use vector_lines::answer_vectors;

// Writes to standard output.
fn put(s: &[u8]) {
    io::write_all(1, s);
}

// Prints how a call ended: 0, 6, or 9 and its code. No other refusal belongs to reading.
fn put_outcome(o: Result<(), Refusal>) {
    match o {
        Ok(()) => put(b" 0\n"),
        Err(Refusal::RecordLength) => put(b" 6\n"),
        Err(Refusal::RuleBroken(code)) => put_code(code),
        _ => put(b" other\n"),
    }
}

// Prints 9 and a code.
fn put_code(code: u8) {
    put(b" 9 ");
    io::print_decimal(1, code as u64);
    put(b"\n");
}

// A header's record.
fn read_header(s: &[u8]) {
    let read = header_reading::read_header(s);
    let outcome = read.outcome;
    put_outcome(outcome);
}

// One vector: its letter, and the library's answer.
fn answer(kind: u8, s: &[u8]) {
    let letter = [kind];
    put(&letter);
    match kind {
        b'S' => put_outcome(judging::check_station(s)),
        b'H' => read_header(s),
        b'h' => put_outcome(header_judging::check_filed_header(s, 2)),
        _ => put(b" no such kind\n"),
    }
}

// Answers all vectors, and says how many there were.
fn main() {
    let mut space = io::large_buffer();
    let n = io::read_full(0, &mut space);
    answer_vectors(&space[..n], answer);
}
