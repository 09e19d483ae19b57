// The calls on files and sheets: judging, replacing and verifying.
ghost use Rattle.replacing.specs.Promises.{StillJudged};
ghost use Rattle.desk_sheets.specs.Promises.{FindingTold, FilingJudged, FilingReplaced, FilingVerified};

use basics::outcomes::{ended, refusal_number};
use replacing::records::replace;
use sheet_judging::judge;
use verifying::verifying::{Finding, verify};

// Judges a file into the lent sheet: 1, 2, 3, or 0.
#[unsafe(no_mangle)]
pub extern "C" fn desk_judge(file: &[u8], sheet: &mut [u8]) -> u8
    ensures { FilingJudged file.now sheet.old result sheet.new }
{
    refusal_number(judge(file, sheet))
}

// Replaces a record, the header being number 0, and mends the sheet: 1 to 6, or 0 and how many rows were written.
#[unsafe(no_mangle)]
pub extern "C" fn desk_replace(
    file: &mut [u8],
    sheet: &mut [u8],
    number: usize,
    rec: &[u8],
    rows: &mut usize,
) -> u8
    ensures filing_replaced { FilingReplaced file.old sheet.old number rec.now result file.new sheet.new rows.new }
    ensures still_judged { StillJudged file.old sheet.old file.new sheet.new }
{
    let replaced = replace(file, sheet, number, rec);
    *rows = replaced.unwrap_or(0);
    refusal_number(ended(replaced))
}

// What was found, as numbers: 0 and 0 for nothing, 1 and 0 for right, 2 and the offset for wrong.
fn told_finding(finding: Finding, offset: &mut usize) -> u8
    ensures { FindingTold finding result offset.new }
{
    match finding {
        Finding::Refused => {
            *offset = 0;
            0
        }
        Finding::Right => {
            *offset = 0;
            1
        }
        Finding::WrongAt(o) => {
            *offset = o;
            2
        }
    }
}

// Whether the sheet is the one that the file is judged to: 1, 2, 3, or 0 and what was found.
#[unsafe(no_mangle)]
pub extern "C" fn desk_verify(file: &[u8], sheet: &[u8], found: &mut u8, offset: &mut usize) -> u8
    ensures { FilingVerified file.now sheet.now result found.new offset.new }
{
    let verified = verify(file, sheet);
    *found = told_finding(verified.finding, offset);
    refusal_number(verified.outcome)
}
