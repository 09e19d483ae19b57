// Dates written in their columns.
#![tactic(auto)]

ghost use Rattle.std.specs.Prelude.{◌≡◌, cond, ◌&&◌, length};
ghost use Rattle.columns.specs.Texts.{sized};
ghost use Rattle.days.specs.Dates.{spell_date, day_fits, spell_day};

use columns::texts::write_blank;
use days::dates::{Date, fits_day};
use numeral_writing::put_digits;

// Writes a date in its eight columns, from the last to the first.
fn put_date(s: &mut [u8], d: Date)
    requires { length s.old ≡ 8 }
    ensures { s.new ≡ spell_date d }
{
    put_digits(s, 4, 4, d.year as u64);
    put_digits(s, 2, 2, d.month as u64);
    put_digits(s, 0, 2, d.day as u64);
}

// Writes a date, or blank, in its eight columns.
pub fn put_day(s: &mut [u8], v: Option<Date>)
    requires { length s.old ≡ 8 }
    ensures { s.new ≡ spell_day v }
{
    match v {
        None => write_blank(s),
        Some(d) => put_date(s, d),
    }
}

// A date that keeps its rule, or blank, in eight columns; else nothing is written.
pub fn write_day(s: &mut [u8], v: Option<Date>) -> bool
    ensures value { result ≡ sized 8 s.old && day_fits v }
    ensures s_after { s.new ≡ cond (sized 8 s.old && day_fits v) (spell_day v) s.old }
{
    if s.len() != 8 {
        return false;
    }
    if !fits_day(v) {
        return false;
    }
    put_day(s, v);
    true
}
