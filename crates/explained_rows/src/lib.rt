// What is explained of one row of a sheet: its line, with the field of a bad record, its bytes and what is wrong with it.
#![tactic(auto)]

ghost use Rattle.std.specs.Prelude.{◌≡◌, ◌+◌, ◌*◌, ◌≤◌, length};
ghost use Rattle.files.specs.Files.{most_stations};
ghost use Rattle.forms.specs.OwnForm.{row_width};
ghost use Rattle.printing.specs.Promises.{Appended};
ghost use Rattle.explained_rows.specs.Rows.{line_end, explained_line, row_explained};

use files::lengths::record_in;
use forms::readers::{is_bad, row_clash, row_code, row_twin};
use printing::pieces::{put_labelled, put_text};
use reasons::put_reason;

// Puts in the end of a station's line, its twin and its clash, and answers where it ends.
fn put_ending(out: &mut [u8], start: usize, twin: u16, clash: u16) -> usize
    requires { start + 20 ≤ length out.old }
    ensures appended { Appended out.old start (line_end twin clash) out.new result }
    ensures upper_bound { result ≤ start + 20 }
{
    let twin_end = put_labelled(out, start, b" twin ", twin);
    let clash_end = put_labelled(out, twin_end, b" clash ", clash);
    put_text(out, clash_end, b"\n")
}

// Puts in a station's line: its number, its code, what is wrong, its twin and its clash, and answers where it ends.
fn put_explained(
    out: &mut [u8],
    start: usize,
    k: u16,
    code: u8,
    twin: u16,
    clash: u16,
    rec: &[u8],
) -> usize
    requires { (length rec.now ≡ 219) × (start + 138 ≤ length out.old) }
    ensures appended { Appended out.old start (explained_line k code twin clash rec.now) out.new result }
    ensures upper_bound { result ≤ start + 138 }
{
    let number_end = put_labelled(out, start, b"station ", k);
    let code_end = put_labelled(out, number_end, b" code ", code as u16);
    let reason_end = put_reason(out, code_end, rec, code);
    put_ending(out, reason_end, twin, clash)
}

// Puts in the line of row i + 1 where it is bad, and answers where it ends.
pub fn put_row(out: &mut [u8], start: usize, file: &[u8], sheet: &[u8], i: usize) -> usize
    requires start_in_bounds { start + 138 ≤ length out.old }
    requires i_bound { (i + 1 ≤ most_stations) × (219 * (i + 1) + 219 ≤ length file.now) × (row_width * i + row_width ≤ length sheet.now) }
    ensures appended { Appended out.old start (row_explained file.now sheet.now (i + 1)) out.new result }
    ensures upper_bound { result ≤ start + 138 }
{
    if !is_bad(sheet, i) {
        return start;
    }
    let code = row_code(sheet, i);
    let twin = row_twin(sheet, i);
    let clash = row_clash(sheet, i);
    let k = i + 1;
    put_explained(out, start, k as u16, code, twin, clash, record_in(file, k))
}
