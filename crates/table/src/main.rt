// Prints the two tables that the second judge walks, from the very numbers that run, as a page for training staff.
#![tactic(auto)]

mod bounds;
mod rules;
mod words;

use crate::bounds::print_bounds;
use crate::rules::print_rows;
use crate::words::{print_kind, print_name, print_unit};
use rule_tables::{ENTRIES, ROWS};

// A field's number, name and columns.
fn print_place(k: usize, first: usize, n: usize) {
    io::write_all(1, b"| ");
    io::print_decimal(1, k as u64);
    io::write_all(1, b" | ");
    print_name(k);
    io::write_all(1, b" | ");
    io::print_decimal(1, first as u64);
    io::write_all(1, b", ");
    io::print_decimal(1, n as u64);
}

// Whether it may be blank.
fn print_blank(allowed: usize) {
    if allowed == 1 {
        io::write_all(1, b" | or blank |\n");
        return;
    }
    io::write_all(1, b" | never blank |\n");
}

// The line of the entry of field number k.
fn print_entry(entry: &[usize; 6], k: usize) {
    let [first, n, kind, low, high, allowed] = *entry;
    print_place(k, first, n);
    io::write_all(1, b" | ");
    print_kind(kind);
    io::write_all(1, b" | ");
    print_bounds(kind, low, high);
    print_unit(k);
    print_blank(allowed);
}

// All lines.
fn print_entries(entries: &[[usize; 6]]) {
    for (i, entry) in entries.iter().enumerate() {
        print_entry(entry, i + 1);
    }
}

fn main() {
    io::write_all(
        1,
        b"# The rules of a station as they run\n\nPrinted by the program `table` from the numbers that the second judge walks.\n\n",
    );
    io::write_all(
        1,
        b"| code | field | first column, length | kind | range | blank |\n|---|---|---|---|---|---|\n",
    );
    print_entries(&ENTRIES);
    io::write_all(1, b"\n## Between fields\n\n");
    print_rows(&ROWS);
}
