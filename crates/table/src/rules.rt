// The second table as sentences.
use crate::words::{print_fact, print_name};

// A field and a fact of it.
fn print_side(field: usize, fact: usize, want: usize) {
    print_name(field);
    io::write_all(1, b" ");
    print_fact(fact, want);
}

// The sentence of a row.
fn print_row(row: &[usize; 7]) {
    let [code, fact, field, want, other, second, wish] = *row;
    io::write_all(1, b"- Rule ");
    io::print_decimal(1, code as u64);
    io::write_all(1, b" is broken where ");
    print_side(field, fact, want);
    io::write_all(1, b" and ");
    print_side(second, other, wish);
    io::write_all(1, b".\n");
}

// All sentences.
pub fn print_rows(rows: &[[usize; 7]]) {
    for row in rows {
        print_row(row);
    }
}
