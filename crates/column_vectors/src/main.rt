// Runs column vectors: each is a letter for the kind of column, three digits for the width, a colon, the bytes and a
// line feed. Prints for each what the library answers, and the columns that it writes of what it read.
#![tactic(auto)]

use columns::sets::Set;
use formats::Format;
use positions::Position;
use vector_lines::answer_vectors;

// Writes to standard output.
fn put(s: &[u8]) {
    io::write_all(1, s);
}

// Prints a number with its sign.
fn put_number(v: i64) {
    if numeral_writing::is_negative(v) {
        put(b"-");
    }
    io::print_decimal(1, numeral_writing::magnitude(v));
}

// Prints columns that were written, or that they were refused.
fn put_columns(written: bool, s: &[u8]) {
    if written {
        put(b" [");
        put(s);
        put(b"]\n");
    } else {
        put(b" refused\n");
    }
}

// Prints the answer of a test.
fn put_test(passed: bool) {
    if passed {
        put(b" yes\n");
    } else {
        put(b" no\n");
    }
}

// A whole number in lent columns.
fn write_whole(s: &mut [u8], v: u64) {
    if !numeral_writing::fits_whole(s.len(), v) {
        put(b" refused\n");
        return;
    }
    numeral_writing::put_whole(s, v);
    put_columns(true, s);
}

// A whole number in the first n columns of a lent space.
fn write_first(space: &mut [u8], n: usize, v: u64) {
    if n <= space.len() {
        write_whole(&mut space[0..n], v);
    }
}

// A whole number, and its spelling in columns of the same width.
fn whole(s: &[u8]) {
    match numerals::read_whole(s) {
        Err(_) => put(b" bad\n"),
        Ok(None) => put(b" blank\n"),
        Ok(Some(v)) => {
            put(b" ");
            io::print_decimal(1, v);
            let mut space = [0u8; 300];
            write_first(&mut space, s.len(), v);
        }
    }
}

// The four columns of a height.
fn write_height(v: i64) {
    if !numeral_writing::fits_signed(4, v) {
        put(b" refused\n");
        return;
    }
    let mut space = [0u8; 4];
    numeral_writing::put_signed(&mut space, v);
    put_columns(true, &space);
}

// A whole number with a sign, and its spelling in four columns.
fn signed(s: &[u8], only_written: bool) {
    match signed_numerals::read_signed(s) {
        Err(_) => put(b" bad\n"),
        Ok(None) => put(b" blank\n"),
        Ok(Some(v)) => {
            if !only_written {
                put(b" ");
                put_number(v);
            }
            write_height(v);
        }
    }
}

// A decimal in lent columns.
fn write_decimal(format: Format, s: &mut [u8], v: i64) {
    if s.len() != formats::decimal_width(format) {
        return;
    }
    if !formats::fits_decimal(format, v) {
        put(b" refused\n");
        return;
    }
    formats::put_format(format, s, v);
    put_columns(true, s);
}

// A decimal in the columns of its format, the first of a lent space.
fn write_format(format: Format, space: &mut [u8], v: i64) {
    let n = formats::decimal_width(format);
    if n <= space.len() {
        write_decimal(format, &mut space[0..n], v);
    }
}

// A decimal, and its spelling.
fn decimal(format: Format, s: &[u8]) {
    match formats::read_decimal(format, s) {
        Err(_) => put(b" bad\n"),
        Ok(None) => put(b" blank\n"),
        Ok(Some(v)) => {
            put(b" ");
            put_number(v);
            let mut space = [0u8; 16];
            write_format(format, &mut space, v);
        }
    }
}

// A typed number, written as a decimal.
fn typed(format: Format, s: &[u8]) {
    match signed_numerals::read_signed(s) {
        Err(_) => put(b" bad\n"),
        Ok(None) => put(b" blank\n"),
        Ok(Some(v)) => {
            let mut space = [0u8; 16];
            write_format(format, &mut space, v);
        }
    }
}

// A date, and its spelling.
fn date(s: &[u8]) {
    match days::dates::read_date(s) {
        Err(_) => put(b" bad\n"),
        Ok(None) => put(b" blank\n"),
        Ok(Some(d)) => {
            put(b" ");
            io::print_decimal(1, d.day as u64);
            put(b" ");
            io::print_decimal(1, d.month as u64);
            put(b" ");
            io::print_decimal(1, d.year as u64);
            let mut space = [0u8; 8];
            let written = day_writing::write_day(&mut space, Some(d));
            put_columns(written, &space);
        }
    }
}

// The fifteen columns of a position.
fn write_position(p: Position) {
    if !position_writing::fits_position(p) {
        put(b" refused\n");
        return;
    }
    let mut space = [0u8; 15];
    position_writing::put_position(&mut space, p);
    put_columns(true, &space);
}

// A position, and its spelling.
fn position(s: &[u8]) {
    match positions::read_position(s) {
        Err(_) => put(b" bad\n"),
        Ok(p) => {
            put(b" ");
            put_number(p.east);
            put(b" ");
            put_number(p.north);
            write_position(p);
        }
    }
}

// The kinds that hold a number, a date or a position.
fn numbers(kind: u8, s: &[u8]) -> bool {
    match kind {
        b'W' => whole(s),
        b'S' => signed(s, false),
        b's' => signed(s, true),
        b'D' => date(s),
        b'L' => position(s),
        _ => return false,
    }
    true
}

// The five formats of decimals.
fn decimals(kind: u8, s: &[u8]) -> bool {
    match kind {
        b'F' => decimal(Format::Frequency, s),
        b'P' => decimal(Format::Power, s),
        b'A' => decimal(Format::Azimuth, s),
        b'E' => decimal(Format::Elevation, s),
        b'G' => decimal(Format::Gain, s),
        _ => return false,
    }
    true
}

// The same, from a typed number.
fn typed_decimals(kind: u8, s: &[u8]) -> bool {
    match kind {
        b'f' => typed(Format::Frequency, s),
        b'p' => typed(Format::Power, s),
        b'a' => typed(Format::Azimuth, s),
        b'e' => typed(Format::Elevation, s),
        b'g' => typed(Format::Gain, s),
        _ => return false,
    }
    true
}

// The kinds that are kept as their bytes.
fn codes(kind: u8, s: &[u8]) -> bool {
    match kind {
        b'X' => put_test(symbols::is_reference(s)),
        b'T' => put_test(symbols::is_antenna(s)),
        b'N' => put_test(symbols::is_station_name(s)),
        b'O' => put_test(symbols::is_country(s)),
        b'U' => put_test(symbols::is_users(s)),
        b'K' => put_test(symbols::is_class(s)),
        b'V' => put_test(symbols::is_service(s)),
        b'Q' => put_test(symbols::is_polarisation(s)),
        _ => return false,
    }
    true
}

// Emissions, remarks, texts and blanks.
fn texts(kind: u8, s: &[u8]) -> bool {
    match kind {
        b'M' => put_test(emissions::is_emission(s)),
        b'Z' => put_test(remarks::is_remarks(s)),
        b't' => put_test(columns::texts::is_left_text(s, s.len(), Set::Text)),
        b'm' => put_test(columns::texts::is_left_text(s, s.len(), Set::Mail)),
        b'B' => put_test(columns::texts::is_blank(s)),
        _ => return false,
    }
    true
}

// One vector: its letter, and the library's answer.
fn answer(kind: u8, s: &[u8]) {
    let letter = [kind];
    put(&letter);
    if numbers(kind, s) {
        return;
    }
    if decimals(kind, s) {
        return;
    }
    if typed_decimals(kind, s) {
        return;
    }
    if codes(kind, s) {
        return;
    }
    if texts(kind, s) {
        return;
    }
    put(b" no such kind\n");
}

// Answers all vectors, and says how many there were.
fn main() {
    let mut space = io::large_buffer();
    let n = io::read_full(0, &mut space);
    answer_vectors(&space[..n], answer);
}
