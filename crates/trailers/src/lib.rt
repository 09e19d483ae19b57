// The trailer: what a sheet says of itself, its header, and the rows that stand.
#![tactic(auto)]

ghost use Rattle.std.specs.Prelude.{◌≡◌, ◌&&◌, ◌+◌, ◌*◌, ◌≤◌, length, take, drop};
ghost use Rattle.columns.specs.Texts.{same};
ghost use Rattle.forms.specs.Counting.{first, count};
ghost use Rattle.forms.specs.Forms.{trailer_of};
ghost use Rattle.forms.specs.OwnForm.{form, bad, with_trailer, trailer_fits, row_width, sheet_length};
ghost use Rattle.files.specs.Files.{most_stations};

use columns::texts::equal;
use forms::form::{HEAD_PLACE, MARK_PLACE, ROW_WIDTH, TRAILER_LENGTH, WIDTH_BYTE};
use words::wide_byte;

// Whether row i + 1 is bad: a byte of it is not 0.
fn bad_row(sheet: &[u8], i: usize) -> bool
    requires { (i ≤ most_stations) × (row_width * i + row_width ≤ length sheet.now) }
    ensures { result ≡ bad sheet.now (i + 1) }
{
    let at = ROW_WIDTH * i;
    wide_byte(sheet, at)
        + wide_byte(sheet, at + 1)
        + wide_byte(sheet, at + 2)
        + wide_byte(sheet, at + 3)
        + wide_byte(sheet, at + 4)
        != 0
}

// The lowest of n rows that is bad, or 0.
fn lowest_bad(sheet: &[u8], n: usize) -> u16
    requires { (n ≤ most_stations) × (row_width * n ≤ length sheet.now) }
    ensures { result ≡ first (bad sheet.now) n }
{
    for i in 0..n {
        if bad_row(sheet, i) {
            return (i + 1) as u16;
        }
    }
    0
}

// How many of n rows are bad.
fn bad_rows(sheet: &[u8], n: usize) -> u16
    requires { (n ≤ most_stations) × (row_width * n ≤ length sheet.now) }
    ensures { result ≡ count (bad sheet.now) n }
{
    let mut found = 0;
    for i in 0..n {
        if bad_row(sheet, i) {
            found += 1;
        }
    }
    found
}

// The lowest bad row, where the number of bad rows is known: it is searched for only where there is one.
fn lowest_of(sheet: &[u8], n: usize, found: u16) -> u16
    requires { (n ≤ most_stations) × (row_width * n ≤ length sheet.now) × (found ≡ count (bad sheet.now) n) }
    ensures { result ≡ first (bad sheet.now) n }
{
    if found == 0 {
        return 0;
    }
    lowest_bad(sheet, n)
}

// The trailer of n rows: distance, width, the header's code, the lowest bad row, the number of bad rows, and the mark.
pub fn trailer_bytes(n: usize, head: u8, lowest: u16, found: u16) -> [u8; TRAILER_LENGTH]
    requires { n ≤ most_stations }
    ensures { result ≡ trailer_of form n head lowest found }
{
    let distance = ROW_WIDTH * n + TRAILER_LENGTH;
    [
        (distance / 256) as u8,
        (distance % 256) as u8,
        WIDTH_BYTE,
        head,
        (lowest / 256) as u8,
        (lowest % 256) as u8,
        (found / 256) as u8,
        (found % 256) as u8,
        b'2',
        b'C',
    ]
}

// The trailer of the n rows that stand, with the header's code.
pub fn standing_trailer(sheet: &[u8], n: usize, head: u8) -> [u8; TRAILER_LENGTH]
    requires { (n ≤ most_stations) × (row_width * n ≤ length sheet.now) }
    ensures { result ≡ trailer_of form n head (first (bad (take (row_width * n) sheet.now)) n) (count (bad (take (row_width * n) sheet.now)) n) }
{
    let rows = &sheet[..ROW_WIDTH * n];
    let found = bad_rows(rows, n);
    trailer_bytes(n, head, lowest_of(rows, n, found), found)
}

// Writes the trailer of the n rows that stand behind them.
pub fn put_trailer(sheet: &mut [u8], n: usize, head: u8)
    requires { (n ≤ most_stations) × (length sheet.old ≡ sheet_length n) }
    ensures { sheet.new ≡ with_trailer n head (take (row_width * n) sheet.old) }
{
    let trailer = standing_trailer(sheet, n, head);
    let end = ROW_WIDTH * n;
    sheet[end..].copy_from_slice(&trailer);
}

// Whether the distance and width that stand at a place, and the mark that ends the sheet, are these.
pub fn fits_shape(sheet: &[u8], start: usize, shape: &[u8], end: usize, mark: &[u8]) -> bool
    requires { (start + 3 ≤ length sheet.now) × (end ≤ length sheet.now) }
    ensures { result ≡ (same shape.now (take 3 (drop start sheet.now)) && same mark.now (drop end sheet.now)) }
{
    let code = start + HEAD_PLACE;
    if !equal(shape, &sheet[start..code]) {
        return false;
    }
    equal(mark, &sheet[end..])
}

// Whether the trailer has the distance, the width and the mark of a sheet of n rows.
pub fn fits_trailer(sheet: &[u8], n: usize) -> bool
    requires { (n ≤ most_stations) × (length sheet.now ≡ sheet_length n) }
    ensures { result ≡ trailer_fits sheet.now n }
{
    let end = ROW_WIDTH * n;
    let distance = end + TRAILER_LENGTH;
    let shape = [(distance / 256) as u8, (distance % 256) as u8, WIDTH_BYTE];
    fits_shape(sheet, end, &shape, end + MARK_PLACE, b"2C")
}
