// The fields of a line on their way into a record.
#![tactic(auto)]

ghost use Rattle.std.specs.Prelude.{◌≡◌, true, ◌≤◌, ◌<◌, length, take};
ghost use Rattle.station.specs.Places.{station_places};
ghost use Rattle.semicolons.specs.Fields.{padded_field, none_longer};
ghost use Rattle.semicolons.specs.Lines.{before, line_fields, record_of};
ghost use Rattle.semicolons.specs.Marks.{Passed, Ends};

use padding::{put_padded, side_after, width_after};
use semicolons::Side;
use splitting::lines::past;
use splitting::marks::is_mark;

// Copies the bytes before the first mark of a text into columns, as many as have room there, and answers how many they are.
fn copy_field(columns: &mut [u8], text: &[u8]) -> usize
    ensures { (result ≤ length columns.new)
        × (take result columns.new ≡ take result text.now)
        × Passed text.now result
        × (result < length columns.new → Ends text.now result) }
{
    // The lower of the two lengths is asked once: asked at each byte, a line takes a fifth longer.
    let most = columns.len().min(text.len());
    for i in 0..most {
        let c = text[i];
        if is_mark(c) {
            return i;
        }
        columns[i] = c;
    }
    most
}

// Puts the field that stands first in a text into its columns, padded on its side, and answers its length; one that is too long is
// not put whole, and more than its columns are answered.
fn put_field(columns: &mut [u8], text: &[u8], side: Side) -> usize
    ensures { (result ≤ length columns.old → Ends text.now result × (columns.new ≡ padded_field side (length columns.old) (take result text.now)))
        × (length columns.old < result → length columns.old < length (before text.now)) }
{
    let n = copy_field(columns, text);
    if n < columns.len() {
        put_padded(columns, &text[..n], side);
        return n;
    }
    if n == text.len() {
        return n;
    }
    if is_mark(text[n]) {
        return n;
    }
    n + 1
}

// Puts the fields of a line into a record, each padded to its columns, up to the first one that is too long.
pub fn put_fields(line: &[u8], rec: &mut [u8]) -> bool
    requires { length rec.old ≡ 219 }
    ensures value { result ≡ none_longer station_places (line_fields line.now) }
    ensures rec_after { result ≡ true → rec.new ≡ record_of line.now }
{
    let mut at = 0;
    let mut column = 0;
    for k in 0..30 {
        let w = width_after(k);
        let side = side_after(k);
        let end = column + w;
        let n = put_field(&mut rec[column..end], &line[at..], side);
        if w < n {
            return false;
        }
        at = past(line, at + n);
        column = end;
    }
    true
}
