// How far a sheet is right: rows are compared as they are judged, and no second sheet is kept.
ghost use Rattle.std.specs.Prelude.{◌≡◌, ◌+◌, ◌*◌, ◌≤◌, length, drop};
ghost use Rattle.files.specs.Files.{HasRecord, most_stations};
ghost use Rattle.forms.specs.Counting.{rows};
ghost use Rattle.forms.specs.OwnForm.{row_width};
ghost use Rattle.sheet.specs.Sheets.{row_of, judged_sheet};
ghost use Rattle.sheet.specs.Entered.{Entered, everybody};
ghost use Rattle.sheet.specs.Promises.{Sized};
ghost use Rattle.alike.specs.Alike.{alike};

use alike::alike_in_front;
use files::lengths::record_in;
use forms::form::ROW_WIDTH;
use header_judging::filed_header_code;
use station_rows::EnteredStations;
use trailers::standing_trailer;

// How many bytes of row i + 1 are right, where the stations before it are entered; then its station is entered too.
fn right_in_row(file: &[u8], sheet: &[u8], entered: &mut EnteredStations, i: usize) -> usize
    requires i_bound { (i + 1 ≤ most_stations) × (row_width * i ≤ length sheet.now) × HasRecord file.now (i + 1) }
    requires entered { Entered file.now everybody entered.old.references entered.old.sites i }
    ensures value { result ≡ alike (row_of file.now (i + 1)) (drop (row_width * i) sheet.now) }
    ensures entered_2 { Entered file.now everybody entered.new.references entered.new.sites (i + 1) }
{
    let row = entered.station_row(file, i + 1);
    let start = ROW_WIDTH * i;
    alike_in_front(&row, &sheet[start..])
}

// How many bytes are right before the first wrong one of n rows.
fn right_in_rows(file: &[u8], sheet: &[u8], n: usize) -> usize
    requires { Sized file.now sheet.now n }
    ensures { result ≡ alike (rows (row_of file.now) n) sheet.now }
{
    let mut entered = EnteredStations::new();
    for i in 0..n {
        let right = right_in_row(file, sheet, &mut entered, i);
        if right < ROW_WIDTH {
            return ROW_WIDTH * i + right;
        }
    }
    ROW_WIDTH * n
}

// How many bytes are right before the first wrong one of a sheet of n rows. The trailer is made from the rows, which are right by then.
pub(crate) fn right_in_sheet(file: &[u8], sheet: &[u8], n: usize) -> usize
    requires { Sized file.now sheet.now n }
    ensures { result ≡ alike (judged_sheet file.now n) sheet.now }
{
    let end = ROW_WIDTH * n;
    let right = right_in_rows(file, sheet, n);
    if right < end {
        return right;
    }
    let head = filed_header_code(record_in(file, 0), n);
    let trailer = standing_trailer(sheet, n, head);
    end + alike_in_front(&trailer, &sheet[end..])
}
