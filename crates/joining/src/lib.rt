// A record's fields on their way out, joined to a line.
#![tactic(auto)]

ghost use Rattle.std.specs.Prelude.{◌≡◌, cond, [], ◌∷◌, ◌++◌, ◌+◌, ◌≤◌, ◌<◌, eqb, length, take, drop};
ghost use Rattle.station.specs.Places.{fields_of};
ghost use Rattle.semicolons.specs.Fields.{station_sides, trimmed_field, trimmed_fields};
ghost use Rattle.semicolons.specs.Lines.{joined_line};

use crate::trimming::trimmed_part;
use padding::{put_text, side_after, width_after};
use semicolons::Side;

mod trimming;

// A field as it goes out, a part of its columns.
fn outgoing(field: &[u8], side: Side) -> &[u8]
    ensures { result.now ≡ trimmed_field side field.now }
{
    match side {
        Side::Left => trimmed_part(field),
        Side::Right => trimmed_part(field),
        Side::Kept => field,
    }
}

// The mark behind the field that k fields stand before.
fn mark_after(k: usize) -> u8
    ensures { result ≡ cond (eqb k 29) 10 59 }
{
    if k == 29 {
        return 10;
    }
    b';'
}

// Puts a text and a mark behind it into lent bytes, from the given place on.
fn put_marked(out: &mut [u8], at: usize, text: &[u8], mark: u8)
    requires { at + length text.now < length out.old }
    ensures { take (at + length text.now + 1) out.new ≡ take at out.old ++ (text.now ++ (mark ∷ [])) }
{
    put_text(out, at, text);
    let end = at + text.len();
    out[end] = mark;
}

// Puts the line of a record into lent bytes, and answers its length.
pub fn put_line(rec: &[u8], out: &mut [u8]) -> usize
    requires { (length rec.now ≡ 219) × (length out.old ≡ 249) }
    ensures { (result ≤ 249) × (take result out.new ≡ joined_line (trimmed_fields station_sides (fields_of rec.now))) }
{
    let mut column = 0;
    let mut at = 0;
    for k in 0..30 {
        let end = column + width_after(k);
        let text = outgoing(&rec[column..end], side_after(k));
        put_marked(out, at, text, mark_after(k));
        at = at + text.len() + 1;
        column = end;
    }
    at
}

// Puts the first n bytes of a text first into lent bytes.
pub fn put_first(out: &mut [u8], text: &[u8], n: usize)
    requires { (n ≤ length text.now) × (n ≤ length out.old) }
    ensures { out.new ≡ take n text.now ++ drop n out.old }
{
    put_text(out, 0, &text[..n]);
}
