// Dates: eight digits, day, month and year, and what they say.
ghost use Rattle.std.specs.Prelude.{◌≡◌, true, ◌≤◌, length};
ghost use Rattle.columns.specs.Sets.{is_digit};
ghost use Rattle.columns.specs.Texts.{every};
ghost use Rattle.numerals.specs.Numbers.{number};
ghost use Rattle.days.specs.Dates.{within, date_rule, date_in, date_of, day_of, day_good, day_fits};

use calendar::days_in;
use columns::sets::Set;
use columns::texts::{all_in, is_blank};
use flaws::{Flaw, unread_of};
use numerals::number_of;

// A day of the calendar as it is filed.
#[derive(Clone, Copy)]
pub struct Date {
    pub day: u8,
    pub month: u8,
    pub year: u16,
}

// Whether a number is from low to high.
fn is_within(low: u16, high: u16, n: u16) -> bool
    ensures { result ≡ within low high n }
{
    if low <= n { n <= high } else { false }
}

// The date rule: month 1 to 12, year 1901 to 9999, and a day that the month has in that year.
pub fn is_date(d: Date) -> bool
    ensures { result ≡ date_rule d }
{
    if !is_within(1, 12, d.month as u16) {
        return false;
    }
    if !is_within(1901, 9999, d.year) {
        return false;
    }
    let last = days_in(d.month, d.year);
    is_within(1, last as u16, d.day as u16)
}

// The number that up to four digits say.
fn number_in(p: &[u8]) -> u16
    requires { (length p.now ≤ 4) × (every is_digit p.now ≡ true) }
    ensures { result ≡ number p.now }
{
    number_of(p) as u16
}

// Eight digits: two of the day, two of the month, four of the year.
fn date_in(s: &[u8]) -> Date
    requires { (length s.now ≡ 8) × (every is_digit s.now ≡ true) }
    ensures { result ≡ date_in s.now }
{
    let day = number_in(&s[0..2]);
    let month = number_in(&s[2..4]);
    let year = number_in(&s[4..8]);
    Date {
        day: day as u8,
        month: month as u8,
        year,
    }
}

// A date, or blank; or what is wrong with the columns.
pub fn read_date(s: &[u8]) -> Result<Option<Date>, Flaw>
    ensures { result ≡ date_of s.now }
{
    if is_blank(s) {
        return Ok(None);
    }
    if s.len() != 8 {
        return Err(unread_of(b"0123456789 ", s));
    }
    if !all_in(Set::Digit, s) {
        return Err(unread_of(b"0123456789 ", s));
    }
    let d = date_in(s);
    if is_date(d) {
        Ok(Some(d))
    } else {
        Err(Flaw::Range)
    }
}

// Whether a date or blank is there.
pub fn is_day(s: &[u8]) -> bool
    ensures { result ≡ day_good s.now }
{
    read_date(s).is_ok()
}

// The date that is there, blank where there is none.
pub fn day_in(s: &[u8]) -> Option<Date>
    ensures { result ≡ day_of s.now }
{
    read_date(s).unwrap_or(None)
}

// Whether a date or its absence can stand.
pub fn fits_day(v: Option<Date>) -> bool
    ensures { result ≡ day_fits v }
{
    match v {
        None => true,
        Some(d) => is_date(d),
    }
}
