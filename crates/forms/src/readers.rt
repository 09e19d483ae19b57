// What a sheet says, whatever its bytes: of each row its code, its twin, its clash and whether it is bad, and the numbers of the trailer.
ghost use Rattle.std.specs.Prelude.{◌≡◌, ◌+◌, ◌*◌, take, drop, eqb};
ghost use Rattle.columns.specs.Texts.{every};
ghost use Rattle.forms.specs.Forms.{value_from};
ghost use Rattle.forms.specs.OwnForm.{number_bytes, row_width, row_in};
ghost use Rattle.forms.specs.Promises.{RowsCounted, RowCodeRead, RowTwinRead, RowClashRead, RowBadRead, HeadRead, LowestRead, FoundRead};

use crate::form::{
    CLASH_PLACE, FOUND_PLACE, HEAD_PLACE, LOWEST_PLACE, ROW_WIDTH, TRAILER_LENGTH, TWIN_PLACE,
};
use columns::texts::byte;

// How many rows stand before the trailer.
pub fn rows_in(sheet: &[u8]) -> usize
    ensures { RowsCounted sheet.now result }
{
    if sheet.len() < TRAILER_LENGTH {
        return 0;
    }
    (sheet.len() - TRAILER_LENGTH) / ROW_WIDTH
}

// What stands behind the first n rows.
fn behind(sheet: &[u8], n: usize) -> &[u8]
    ensures { result.now ≡ drop (row_width * n) sheet.now }
{
    if n > sheet.len() / ROW_WIDTH {
        return &sheet[sheet.len()..];
    }
    let start = ROW_WIDTH * n;
    &sheet[start..]
}

// Row i + 1 as it stands.
fn row(sheet: &[u8], i: usize) -> &[u8]
    ensures { result.now ≡ row_in sheet.now (i + 1) }
{
    let rest = behind(sheet, i);
    if rest.len() < ROW_WIDTH {
        return rest;
    }
    &rest[0..ROW_WIDTH]
}

// Two bytes as a number, high byte first.
fn joined(high: u8, low: u8) -> u16
    ensures { result ≡ high * 256 + low }
{
    u16::from_be_bytes([high, low])
}

// The number whose bytes start at a place, as many of them as there are.
fn number(text: &[u8], place: usize) -> u16
    ensures { result ≡ value_from 0 (take number_bytes (drop place text.now)) }
{
    if place >= text.len() {
        return 0;
    }
    let next = place + 1;
    if next == text.len() {
        return joined(0, text[place]);
    }
    joined(text[place], text[next])
}

// Whether every byte is 0.
fn is_zero(text: &[u8]) -> bool
    ensures { result ≡ every (λ c. eqb c 0) text.now }
{
    text.iter().all(|c| *c == 0)
}

// The code of row i + 1,
pub fn row_code(sheet: &[u8], i: usize) -> u8
    ensures { RowCodeRead sheet.now i result }
{
    byte(row(sheet, i), 0)
}

// its twin,
pub fn row_twin(sheet: &[u8], i: usize) -> u16
    ensures { RowTwinRead sheet.now i result }
{
    number(row(sheet, i), TWIN_PLACE)
}

// its clash,
pub fn row_clash(sheet: &[u8], i: usize) -> u16
    ensures { RowClashRead sheet.now i result }
{
    number(row(sheet, i), CLASH_PLACE)
}

// and whether it is bad.
pub fn is_bad(sheet: &[u8], i: usize) -> bool
    ensures { RowBadRead sheet.now i result }
{
    !is_zero(row(sheet, i))
}

// The header's code in the trailer of n rows,
pub fn head_code(sheet: &[u8], n: usize) -> u8
    ensures { HeadRead sheet.now n result }
{
    byte(behind(sheet, n), HEAD_PLACE)
}

// the lowest bad row,
pub fn lowest(sheet: &[u8], n: usize) -> u16
    ensures { LowestRead sheet.now n result }
{
    number(behind(sheet, n), LOWEST_PLACE)
}

// and the number of bad rows.
pub fn found(sheet: &[u8], n: usize) -> u16
    ensures { FoundRead sheet.now n result }
{
    number(behind(sheet, n), FOUND_PLACE)
}
