// A date that may not be left out, as the header asks: in its columns, and typed.
#![tactic(auto)]

ghost use Rattle.std.specs.Prelude.{◌≡◌};
ghost use Rattle.days.specs.Dates.{date_good, date_fits};

use days::dates::{Date, is_date, read_date};

// A date is there, as the header asks.
pub fn is_dated(s: &[u8]) -> bool
    ensures { result ≡ date_good s.now }
{
    read_date(s).unwrap_or(None).is_some()
}

// Whether a date can stand where it may not be left out.
pub fn fits_date(v: Option<Date>) -> bool
    ensures { result ≡ date_fits v }
{
    match v {
        None => false,
        Some(d) => is_date(d),
    }
}
