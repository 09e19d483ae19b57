// The lines of a report's bad rows.
#![tactic(auto)]

ghost use Rattle.std.specs.Prelude.{◌+◌, ◌*◌, ◌≤◌, length};
ghost use Rattle.files.specs.Files.{most_stations};
ghost use Rattle.forms.specs.Counting.{rows};
ghost use Rattle.forms.specs.OwnForm.{row_width};
ghost use Rattle.printing.specs.Promises.{Appended};
ghost use Rattle.report_rows.specs.Rows.{row_line};

use forms::readers::{is_bad, row_clash, row_code, row_twin};
use printing::lines::put_bad_row;

// Puts in the line of row i + 1 where it is bad, and answers where it ends.
fn put_row(out: &mut [u8], start: usize, sheet: &[u8], i: usize) -> usize
    requires start_in_bounds { start + 40 ≤ length out.old }
    requires i_bound { (i + 1 ≤ most_stations) × (row_width * i + row_width ≤ length sheet.now) }
    ensures appended { Appended out.old start (row_line sheet.now (i + 1)) out.new result }
    ensures upper_bound { result ≤ start + 40 }
{
    if !is_bad(sheet, i) {
        return start;
    }
    let code = row_code(sheet, i);
    let twin = row_twin(sheet, i);
    let clash = row_clash(sheet, i);
    let k = i + 1;
    put_bad_row(out, start, k as u16, code, twin, clash)
}

// Puts in the lines of all bad rows of n, and answers where they end.
pub fn put_rows(out: &mut [u8], start: usize, sheet: &[u8], n: usize) -> usize
    requires n_in_bounds { start + 40 * n ≤ length out.old }
    requires n_le_most_stations { (n ≤ most_stations) × (row_width * n ≤ length sheet.now) }
    ensures appended { Appended out.old start (rows (row_line sheet.now) n) out.new result }
    ensures upper_bound { result ≤ start + 40 * n }
{
    let mut end = start;
    for i in 0..n {
        end = put_row(out, end, sheet, i);
    }
    end
}
