// Judging: the whole sheet of a file.
#![tactic(auto)]

ghost use Rattle.std.specs.Prelude.{◌≡◌};
ghost use Rattle.sheet.specs.Sheets.{judged_sheet};
ghost use Rattle.sheet.specs.Calls.{judge_outcome};
ghost use Rattle.sheet.specs.Promises.{SheetJudged, Sized};

use basics::Refusal;
use chains::keys::Scope;
use files::lengths::{MOST_STATIONS, check_file, record_in, stations_in};
use forms::form::{ROW_WIDTH, TRAILER_LENGTH};
use header_judging::filed_header_code;
use sheet_rows::put_rows;
use trailers::put_trailer;

// The most bytes that a sheet has.
pub const LONGEST_SHEET: usize = ROW_WIDTH * MOST_STATIONS + TRAILER_LENGTH;

// Writes the sheet of a file of n stations.
pub fn judge_sized(file: &[u8], sheet: &mut [u8], n: usize)
    requires { Sized file.now sheet.old n }
    ensures { sheet.new ≡ judged_sheet file.now n }
{
    let everybody = Scope {
        all: true,
        one: 0,
        other: 0,
    };
    put_rows(file, sheet, n, everybody, 1);
    let head = filed_header_code(record_in(file, 0), n);
    put_trailer(sheet, n, head);
}

// How judging ends: 1, 2, 3, or done.
pub fn judge_outcome(file: &[u8], sheet: &[u8]) -> Result<(), Refusal>
    ensures { result ≡ judge_outcome file.now sheet.now }
{
    check_file(file)?;
    let n = stations_in(file);
    if sheet.len() != ROW_WIDTH * n + TRAILER_LENGTH {
        return Err(Refusal::SheetLength);
    }
    Ok(())
}

// Judges a file into the lent sheet; a refusal leaves every byte as it was.
pub fn judge(file: &[u8], sheet: &mut [u8]) -> Result<(), Refusal>
    ensures { SheetJudged file.now sheet.old result sheet.new }
{
    judge_outcome(file, sheet)?;
    let n = stations_in(file);
    judge_sized(file, sheet, n);
    Ok(())
}
