// Powers, angles and gains: 8B1, 9A, 9B and 9G.
#![tactic(auto)]

ghost use Rattle.std.specs.Prelude.{◌≡◌, length};
ghost use Rattle.formats.specs.Formats.{digits_before, digits_after, may_sign, format_width};
ghost use Rattle.formats.specs.Tenths.{tenths_good, tenths_of, tenths_fit, spell_tenths};
ghost use Rattle.fields.specs.Table.{range_of};

use columns::texts::write_blank;
use formats::{Format, Tenths, fits_decimal, put_format, read_decimal};
use numeral_writing::magnitude;

// Whether a number is in its field's range: an azimuth up to 359.9 degrees, an elevation up to 90.0 either way.
pub fn in_range(format: Format, v: i64) -> bool
    ensures { result ≡ range_of format v }
{
    match format {
        Format::Frequency => true,
        Format::Power => true,
        Format::Azimuth => magnitude(v) <= 3599,
        Format::Elevation => magnitude(v) <= 900,
        Format::Gain => true,
    }
}

// Whether a field is blank, or a number of its format and in its range.
pub fn is_tenths(format: Format, s: &[u8]) -> bool
    ensures { result ≡ tenths_good (digits_before format) (digits_after format) (may_sign format) (range_of format) s.now }
{
    match read_decimal(format, s) {
        Ok(Some(v)) => in_range(format, v),
        Ok(None) => true,
        Err(_) => false,
    }
}

// What a field says; what cannot be read is never taken for a number.
pub fn read_tenths(format: Format, s: &[u8]) -> Tenths
    ensures { result ≡ tenths_of (digits_before format) (digits_after format) (may_sign format) s.now }
{
    read_decimal(format, s).unwrap_or(None)
}

// Whether a value or its absence can stand in its field.
pub fn fits_tenths(format: Format, v: Tenths) -> bool
    ensures { result ≡ tenths_fit (digits_before format) (digits_after format) (may_sign format) (range_of format) v }
{
    match v {
        None => true,
        Some(z) => {
            if !fits_decimal(format, z) {
                return false;
            }
            in_range(format, z)
        }
    }
}

// Writes a value, or blank, in the columns of its field.
pub fn put_tenths(format: Format, s: &mut [u8], v: Tenths)
    requires { length s.old ≡ format_width format }
    ensures { s.new ≡ spell_tenths (digits_before format) (digits_after format) (may_sign format) v }
{
    match v {
        None => write_blank(s),
        Some(z) => put_format(format, s, z),
    }
}
