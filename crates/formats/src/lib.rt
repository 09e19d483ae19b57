// Decimals in the five formats of the paper, read and written.
#![tactic(auto)]

ghost use Rattle.std.specs.Prelude.{◌≡◌, ◌+◌, length};
ghost use Rattle.formats.specs.Formats.{digits_before, digits_after, may_sign, format_of, format_width, format_fits, spell_format};

use columns::texts::spaces;
use decimals::{magnitude_of, put_decimal};
use flaws::Flaw;
use numeral_writing::{fits_whole, is_negative, magnitude};
use signed_numerals::{after_sign, has_minus, in_sign};

// The field that a decimal stands in: it decides the digits before the point and after it, and the sign.
#[derive(Clone, Copy)]
pub enum Format {
    Frequency,
    Power,
    Azimuth,
    Elevation,
    Gain,
}

// A number of tenths (of a dBW, a degree or a dB), or none. Blank is never zero.
pub type Tenths = Option<i64>;

// How many digits may stand before the point.
fn digits_before(format: Format) -> usize
    ensures { result ≡ digits_before format }
{
    match format {
        Format::Frequency => 5,
        Format::Power => 3,
        Format::Azimuth => 3,
        Format::Elevation => 2,
        Format::Gain => 2,
    }
}

// How many digits may stand after the point.
fn digits_after(format: Format) -> usize
    ensures { result ≡ digits_after format }
{
    match format {
        Format::Frequency => 5,
        Format::Power => 1,
        Format::Azimuth => 1,
        Format::Elevation => 1,
        Format::Gain => 1,
    }
}

// Whether a sign may stand.
fn may_sign(format: Format) -> bool
    ensures { result ≡ may_sign format }
{
    match format {
        Format::Frequency => false,
        Format::Power => true,
        Format::Azimuth => false,
        Format::Elevation => true,
        Format::Gain => false,
    }
}

// A decimal of a format, in units of its last place, or blank; or what is wrong with the columns.
pub fn read_decimal(format: Format, s: &[u8]) -> Result<Option<i64>, Flaw>
    ensures { result ≡ format_of format s.now }
{
    let i = spaces(s);
    if i == s.len() {
        return Ok(None);
    }
    let a = digits_before(format);
    let b = digits_after(format);
    let sign = may_sign(format);
    let t = &s[i..];
    let minus = has_minus(sign, t);
    let w = magnitude_of(after_sign(sign, t), a, b);
    if sign {
        in_sign(minus, w, b"0123456789.+- ", s)
    } else {
        in_sign(minus, w, b"0123456789. ", s)
    }
}

// How many columns a format has.
pub fn decimal_width(format: Format) -> usize
    ensures { result ≡ format_width format }
{
    match format {
        Format::Frequency => 11,
        Format::Power => 6,
        Format::Azimuth => 5,
        Format::Elevation => 5,
        Format::Gain => 4,
    }
}

// Whether a number's digits and its sign have their places in a format.
pub fn fits_decimal(format: Format, v: i64) -> bool
    ensures { result ≡ format_fits format v }
{
    let a = digits_before(format);
    let b = digits_after(format);
    if !fits_whole(a + b, magnitude(v)) {
        return false;
    }
    if may_sign(format) {
        return true;
    }
    !is_negative(v)
}

// Writes a decimal in the columns of its format.
pub fn put_format(format: Format, s: &mut [u8], v: i64)
    requires { length s.old ≡ format_width format }
    ensures { s.new ≡ spell_format format v }
{
    let a = digits_before(format);
    let b = digits_after(format);
    let sign = may_sign(format);
    put_decimal(s, a, b, sign, v);
}
