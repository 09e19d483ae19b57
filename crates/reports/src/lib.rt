// Reports: a file judged into a sheet, and the sheet's lines.
#![tactic(auto)]

ghost use Rattle.std.specs.Prelude.{◌≡◌, true, ◌≤◌, length, eqb};
ghost use Rattle.basics.specs.Outcomes.{refusal};
ghost use Rattle.files.specs.Files.{stations, most_stations};
ghost use Rattle.forms.specs.OwnForm.{sheet_length, found_in};
ghost use Rattle.sheet.specs.Sheets.{sheet_of};
ghost use Rattle.reports.specs.Reports.{sheet_lines, sheet_report};
ghost use Rattle.files.specs.Calls.{length_outcome};
ghost use Rattle.printing.specs.Promises.{Appended};
ghost use Rattle.reports.specs.Promises.{ReportWritten};

use basics::outcomes::refusal_number;
use files::lengths::{check_file, stations_in};
use forms::form::{ROW_WIDTH, TRAILER_LENGTH};
use forms::readers::{found, head_code};
use printing::lines::{put_header, put_refused, put_total};
use report_rows::put_rows;
use sheet_judging::{LONGEST_SHEET, judge_sized};

// Puts in the lines of a sheet of n rows, and answers where they end.
fn put_sheet(out: &mut [u8], sheet: &[u8], n: usize) -> usize
    requires { (n ≤ most_stations) × (length sheet.now ≡ sheet_length n) × (12288 ≤ length out.old) }
    ensures { Appended out.old 0 (sheet_lines sheet.now n (found_in sheet.now n)) out.new result }
{
    let header_end = put_header(out, 0, head_code(sheet, n));
    let rows_end = put_rows(out, header_end, sheet, n);
    put_total(out, rows_end, n as u16, found(sheet, n))
}

// Judges a file of n stations into a sheet, puts in the sheet's lines, and answers where they end.
fn put_judged(out: &mut [u8], file: &[u8], sheet: &mut [u8], n: usize) -> usize
    requires n_value { (n ≡ stations file.now) × (length sheet.old ≡ sheet_length n) × (12288 ≤ length out.old) }
    requires file_value { eqb (refusal (length_outcome file.now)) 0 ≡ true }
    ensures { Appended out.old 0 (sheet_report (sheet_of file.now) n) out.new result }
{
    judge_sized(file, sheet, n);
    put_sheet(out, sheet, n)
}

// Room for the longest sheet.
fn sheet_space() -> [u8; LONGEST_SHEET]
    ensures { sheet_length most_stations ≡ length result }
{
    [0; LONGEST_SHEET]
}

// Puts in the lines of a file whose length is right, and answers where they end.
fn put_file(out: &mut [u8], file: &[u8]) -> usize
    requires in_bounds { 12288 ≤ length out.old }
    requires file_value { eqb (refusal (length_outcome file.now)) 0 ≡ true }
    ensures { Appended out.old 0 (sheet_report (sheet_of file.now) (stations file.now)) out.new result }
{
    let n = stations_in(file);
    let end = ROW_WIDTH * n + TRAILER_LENGTH;
    let mut space = sheet_space();
    put_judged(out, file, &mut space[..end], n)
}

// Writes the report of a file into the lent bytes, and answers its length; the bytes behind it are kept.
pub fn write_report(file: &[u8], out: &mut [u8; 12288]) -> usize
    ensures { ReportWritten file.now out.old result out.new }
{
    let outcome = check_file(file);
    if outcome.is_err() {
        return put_refused(out, 0, refusal_number(outcome));
    }
    put_file(out, file)
}
