// What is explained of a file: the lines of the sheet judged from it, each bad row with the field, its bytes and what is wrong with it.
#![tactic(auto)]

ghost use Rattle.std.specs.Prelude.{◌≡◌, true, ◌+◌, ◌*◌, ◌≤◌, length, eqb};
ghost use Rattle.basics.specs.Outcomes.{refusal};
ghost use Rattle.files.specs.Files.{stations, most_stations};
ghost use Rattle.forms.specs.Counting.{rows, count};
ghost use Rattle.forms.specs.OwnForm.{row_width, sheet_length, found_in, bad};
ghost use Rattle.sheet.specs.Sheets.{sheet_of};
ghost use Rattle.files.specs.Calls.{length_outcome};
ghost use Rattle.printing.specs.Promises.{Appended};
ghost use Rattle.explained_rows.specs.Rows.{row_explained};
ghost use Rattle.explaining.specs.Explanations.{sheet_explained};
ghost use Rattle.explaining.specs.Promises.{ExplanationWritten};

use basics::outcomes::refusal_number;
use explained_rows::put_row;
use files::lengths::{check_file, stations_in};
use forms::form::{ROW_WIDTH, TRAILER_LENGTH};
use forms::readers::{found, head_code};
use printing::lines::{put_header, put_refused, put_total};
use sheet_judging::{LONGEST_SHEET, judge_sized};

// Puts in the lines of all bad rows of n, and answers where they end.
fn put_rows(out: &mut [u8], start: usize, file: &[u8], sheet: &[u8], n: usize) -> usize
    requires n_in_bounds { start + 138 * n ≤ length out.old }
    requires n_le_most_stations { (n ≤ most_stations) × (219 * n + 219 ≤ length file.now) × (row_width * n ≤ length sheet.now) }
    ensures appended { Appended out.old start (rows (row_explained file.now sheet.now) n) out.new result }
    ensures upper_bound { result ≤ start + 138 * n }
{
    let mut end = start;
    for i in 0..n {
        end = put_row(out, end, file, sheet, i);
    }
    end
}

// Puts in the lines of a sheet of n rows, and answers where they end.
fn put_sheet(out: &mut [u8], file: &[u8], sheet: &[u8], n: usize) -> usize
    requires { (n ≤ most_stations) × (219 * n + 219 ≤ length file.now) × (length sheet.now ≡ sheet_length n) × (41984 ≤ length out.old) }
    ensures { Appended out.old 0 (sheet_explained file.now sheet.now n (found_in sheet.now n)) out.new result }
{
    let header_end = put_header(out, 0, head_code(sheet, n));
    let rows_end = put_rows(out, header_end, file, sheet, n);
    put_total(out, rows_end, n as u16, found(sheet, n))
}

// Judges a file of n stations into a sheet, puts in the sheet's lines, and answers where they end.
fn put_judged(out: &mut [u8], file: &[u8], sheet: &mut [u8], n: usize) -> usize
    requires n_value { (n ≡ stations file.now) × (length sheet.old ≡ sheet_length n) × (41984 ≤ length out.old) }
    requires file_value { eqb (refusal (length_outcome file.now)) 0 ≡ true }
    ensures { Appended out.old 0 (sheet_explained file.now (sheet_of file.now) n (count (bad (sheet_of file.now)) n)) out.new result }
{
    judge_sized(file, sheet, n);
    put_sheet(out, file, sheet, n)
}

// Room for the longest sheet.
fn sheet_space() -> [u8; LONGEST_SHEET]
    ensures { sheet_length most_stations ≡ length result }
{
    [0; LONGEST_SHEET]
}

// Puts in the lines of a file whose length is right, and answers where they end.
fn put_file(out: &mut [u8], file: &[u8]) -> usize
    requires in_bounds { 41984 ≤ length out.old }
    requires file_value { eqb (refusal (length_outcome file.now)) 0 ≡ true }
    ensures { Appended out.old 0 (sheet_explained file.now (sheet_of file.now) (stations file.now) (count (bad (sheet_of file.now)) (stations file.now))) out.new result }
{
    let n = stations_in(file);
    let end = ROW_WIDTH * n + TRAILER_LENGTH;
    let mut space = sheet_space();
    put_judged(out, file, &mut space[..end], n)
}

// Writes the explanation of a file into the lent bytes, and answers its length; the bytes behind it are kept.
pub fn write_explanation(file: &[u8], out: &mut [u8; 41984]) -> usize
    ensures { ExplanationWritten file.now out.old result out.new }
{
    let outcome = check_file(file);
    if outcome.is_err() {
        return put_refused(out, 0, refusal_number(outcome));
    }
    put_file(out, file)
}
