// A line taken apart field by field.
ghost use Rattle.std.specs.Prelude.{◌≡◌, ◌+◌, ◌-◌, ◌≤◌, length, get_or, drop};
ghost use Rattle.semicolons.specs.Lines.{before, behind, marked_with, is_line};

use crate::marks::{count, field_length};

// The last byte of a text; 0 where it has none.
pub fn last_byte(line: &[u8]) -> u8
    ensures { result ≡ get_or line.now (length line.now - 1) 0 }
{
    line.last().copied().unwrap_or(0)
}

// So many semicolons and one line feed, the last byte.
pub fn is_marked(line: &[u8], semicolons: usize) -> bool
    ensures { result ≡ marked_with semicolons line.now }
{
    if count(line, b';') != semicolons {
        return false;
    }
    if count(line, 10) != 1 {
        return false;
    }
    last_byte(line) == 10
}

// The marks of a station's line.
pub fn is_line(line: &[u8]) -> bool
    ensures { result ≡ is_line line.now }
{
    is_marked(line, 29)
}

// The field that begins at a place of a line.
pub fn field_at(line: &[u8], at: usize) -> &[u8]
    requires { at ≤ length line.now }
    ensures { (result.now ≡ before (drop at line.now)) × (at + length result.now ≤ length line.now) × (drop (at + length result.now + 1) line.now ≡ behind (drop at line.now)) }
{
    let rest = &line[at..];
    let n = field_length(rest);
    &rest[..n]
}

// Where the next field begins, behind one that ends at the given place.
pub fn past(line: &[u8], end: usize) -> usize
    ensures { (result ≤ length line.now) × (drop result line.now ≡ drop (end + 1) line.now) }
{
    if end < line.len() {
        return end + 1;
    }
    line.len()
}
