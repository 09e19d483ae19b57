// The rows of a sheet, written in one loop over the stations of a file.
#![tactic(auto)]

ghost use Rattle.std.specs.Prelude.{◌≡◌, ◌++◌, ◌+◌, ◌*◌, ◌≤◌, length, take, drop};
ghost use Rattle.files.specs.Files.{most_stations};
ghost use Rattle.forms.specs.Counting.{count, rows};
ghost use Rattle.forms.specs.OwnForm.{row_width};
ghost use Rattle.sheet.specs.Entered.{written, written_row};
ghost use Rattle.sheet.specs.Promises.{Sized};

use chains::keys::{Scope, in_scope, site_number};
use forms::form::ROW_WIDTH;
use station_rows::EnteredStations;

// Writes a row's bytes as row i + 1 of the sheet.
fn put_row(sheet: &mut [u8], row: [u8; ROW_WIDTH], i: usize)
    requires row_width_in_bounds { row_width * i + row_width ≤ length sheet.old }
    requires i_le_most_stations { i ≤ most_stations }
    ensures { sheet.new ≡ take (row_width * i) sheet.old ++ (row ++ drop (row_width * i + row_width) sheet.old) }
{
    let start = ROW_WIDTH * i;
    let end = start + ROW_WIDTH;
    sheet[start..end].copy_from_slice(&row);
}

// Writes the rows in scope of n stations from a number on, and answers how many; those before it are entered only.
pub fn put_rows(file: &[u8], sheet: &mut [u8], n: usize, scope: Scope, from: usize) -> usize
    requires { Sized file.now sheet.old n }
    ensures value { result ≡ count (written scope from file.now) n }
    ensures sheet_after { sheet.new ≡ rows (written_row scope from file.now sheet.old) n ++ drop (row_width * n) sheet.old }
{
    let mut entered = EnteredStations::new();
    let mut wrote: usize = 0;
    for i in 0..n {
        let k = i + 1;
        if in_scope(scope, site_number(file, k)) {
            if k < from {
                entered.enter_station(file, k);
            } else {
                let row = entered.station_row(file, k);
                put_row(sheet, row, i);
                wrote += 1;
            }
        }
    }
    wrote
}
