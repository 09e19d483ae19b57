// A carriage's line, `number;frequency;unit;power;13X`: its fields, and how they are put into a station's record.
#![tactic(auto)]

ghost use Rattle.std.specs.Prelude.{◌≡◌, true, ◌≤◌, leb, length};
ghost use Rattle.vehicles.specs.Digits.{number_digits};
ghost use Rattle.semicolons.specs.Fields.{padded_field, none_longer};
ghost use Rattle.carriage_lines.specs.Lines.{field_behind, carriage_number, own_fields, own_places, carriage_record};

use columns::texts::write_text;
use padding::put_padded;
use semicolons::Side;
use splitting::lines::{field_at, past};
use vehicle_names::name_of;

// The field of a line that k others stand before.
pub fn field_after(line: &[u8], k: usize) -> &[u8]
    ensures { result.now ≡ field_behind k line.now }
{
    let mut at = 0;
    for _ in 0..k {
        let field = field_at(line, at);
        at = past(line, at + field.len());
    }
    field_at(line, at)
}

// That field is no longer than w columns.
fn fits(line: &[u8], k: usize, w: usize) -> bool
    ensures { result ≡ leb (length (field_behind k line.now)) w }
{
    field_after(line, k).len() <= w
}

// No field behind the number is longer than its columns.
pub fn fields_fit(line: &[u8]) -> bool
    ensures { result ≡ none_longer own_places (own_fields line.now) }
{
    if !fits(line, 1, 11) {
        return false;
    }
    if !fits(line, 2, 1) {
        return false;
    }
    if !fits(line, 3, 6) {
        return false;
    }
    if !fits(line, 4, 15) {
        return false;
    }
    true
}

// Puts a field of a line into its columns, padded on its side.
fn put_own(columns: &mut [u8], line: &[u8], k: usize, side: Side)
    requires { length (field_behind k line.now) ≤ length columns.old }
    ensures { columns.new ≡ padded_field side (length columns.old) (field_behind k line.now) }
{
    let field = field_after(line, k);
    put_padded(columns, field, side);
}

// Puts a carriage's name and its own fields into the record of the defaults.
pub fn put_carriage(line: &[u8], rec: &mut [u8])
    requires { (length rec.old ≡ 219) × (none_longer own_places (own_fields line.now) ≡ true) × (length (carriage_number line.now) ≡ number_digits) }
    ensures { rec.new ≡ carriage_record line.now rec.old }
{
    put_own(&mut rec[0..11], line, 1, Side::Left);
    put_own(&mut rec[11..12], line, 2, Side::Right);
    let name = name_of(field_after(line, 0));
    write_text(&mut rec[28..48], &name);
    put_own(&mut rec[84..90], line, 3, Side::Left);
    put_own(&mut rec[204..219], line, 4, Side::Right);
}
