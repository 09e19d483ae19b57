// The days of the Gregorian calendar.
#![tactic(auto)]

ghost use Rattle.std.specs.Prelude.{◌≡◌};
ghost use Rattle.calendar.specs.Calendar.{is_leap, days_in};

// A leap year: every fourth year, not every hundredth, but every four-hundredth.
pub fn is_leap(year: u16) -> bool
    ensures { result ≡ is_leap year }
{
    if year % 4 != 0 {
        return false;
    }
    if year % 100 != 0 {
        return true;
    }
    year % 400 == 0
}

// The days of a month in a year; what is no month is given 31.
pub fn days_in(month: u8, year: u16) -> u8
    ensures { result ≡ days_in month year }
{
    match month {
        2 => { if is_leap(year) { 29 } else { 28 } }
        4 | 6 | 9 | 11 => 30,
        _ => 31,
    }
}
