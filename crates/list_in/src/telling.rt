// What the library tells of a line that is refused: with 9 the kind of what is wrong, with 10 its marks, with 11 its first field that is too long.
use faults::long_fields::long_field;
use faults::marking::line_marks;
use gathering::Gathered;
use line_flaws::explain_line;
use wording::{field_text, flaw_text};

// The bytes of a line that are held.
fn held_part(line: &[u8], held: usize) -> &[u8] {
    if held < line.len() {
        return &line[..held];
    }
    line
}

// Says how many, and that there may be more where not all is held.
fn tell_count(what: &[u8], n: usize, all: bool) {
    io::write_all(2, what);
    io::print_decimal(2, n as u64);
    if !all {
        io::write_all(2, b" or more");
    }
}

// Says how many semicolons a line has. Of one that is too long to be held they are counted up to 30.
fn tell_semicolons(line: &[u8; 250], gathered: Gathered) {
    if gathered.held < 250 {
        let marks = line_marks(held_part(line, gathered.held));
        tell_count(b" semicolons ", marks.semicolons, true);
        return;
    }
    tell_count(
        b" semicolons ",
        gathered.semicolons,
        gathered.semicolons < 30,
    );
}

// Says how many semicolons a line has, and whether it ends in a line feed.
fn tell_marks(line: &[u8; 250], gathered: Gathered) {
    tell_semicolons(line, gathered);
    if gathered.last == 10 {
        io::write_all(2, b" line feed yes");
        return;
    }
    io::write_all(2, b" line feed no");
}

// Whether a line is held to its end: it is shorter than the buffer, or ends with it.
fn held_whole(line: &[u8; 250], held: usize) -> bool {
    if held < 250 {
        return true;
    }
    line[249] == 10
}

// Says which field is too long, how long it is, and how long it may be.
fn tell_field(line: &[u8; 250], held: usize) {
    let field = long_field(held_part(line, held));
    let number = field.number;
    io::write_all(2, b" field ");
    io::print_decimal(2, number as u64);
    io::write_all(2, b" ");
    io::write_all(2, field_text(number).as_bytes());
    tell_count(b" length ", field.length, held_whole(line, held));
    tell_count(b" most ", field.most, true);
}

// Says what is wrong with the field that the code of a line names.
fn tell_kind(line: &[u8; 250], held: usize) {
    let told = explain_line(held_part(line, held));
    let flaw = told.flaw;
    io::write_all(2, flaw_text(flaw).as_bytes());
}

// Says why a line is refused with 9, 10 or 11.
pub(crate) fn tell_reason(line: &[u8; 250], gathered: Gathered, refusal: u8) {
    if refusal == 9 {
        tell_kind(line, gathered.held);
    }
    if refusal == 10 {
        tell_marks(line, gathered);
    }
    if refusal == 11 {
        tell_field(line, gathered.held);
    }
}
