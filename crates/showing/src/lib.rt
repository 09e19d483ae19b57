// Showing: the piece of the file itself that holds a field.
#![tactic(auto)]

ghost use Rattle.std.specs.Prelude.{◌≡◌, not, ◌||◌, ltb, eqb, ◌+◌, ◌-◌, ◌≤◌, length, take, drop};
ghost use Rattle.places.specs.Places.{field_count};
ghost use Rattle.basics.specs.Pieces.{StandsAt};
ghost use Rattle.showing.specs.Promises.{ShowJudged, FieldShown};

use basics::{Place, Refusal};
use files::lengths::{check_file, record_in, stations_in};
use places::field_place;

// Record number k has a field number j.
fn has_field(k: usize, j: usize) -> bool
    ensures { result ≡ not (eqb j 0 || ltb (field_count k) j) }
{
    if j == 0 {
        return false;
    }
    if k == 0 {
        return j <= 14;
    }
    j <= 30
}

// How showing field j of record k ends: 1, 2, 5, 8, or done.
pub fn show_outcome(file: &[u8], k: usize, j: usize) -> Result<(), Refusal>
    ensures { ShowJudged file.now k j result }
{
    check_file(file)?;
    if k > stations_in(file) {
        return Err(Refusal::NoSuchRecord);
    }
    if !has_field(k, j) {
        return Err(Refusal::NoSuchField);
    }
    Ok(())
}

// Field j of a record that has it.
fn field_in(rec: &[u8], place: Place) -> &[u8]
    requires { (1 ≤ place.first) × (place.first + place.length ≤ length rec.now + 1) }
    ensures { (result.now ≡ take place.length (drop (place.first - 1) rec.now)) × StandsAt rec.entry (place.first - 1) result }
{
    let start = place.first - 1;
    let end = start + place.length;
    &rec[start..end]
}

// The piece of the file itself that holds field j of record k, and an empty one at its front on a refusal; `show_outcome` says which.
pub fn show(file: &[u8], k: usize, j: usize) -> &[u8]
    ensures { FieldShown file.entry k j result }
{
    if show_outcome(file, k, j).is_err() {
        return &file[..0];
    }
    field_in(record_in(file, k), field_place(k, j))
}
