// What is wrong with a field of numbers: a frequency and its unit, tenths, a whole number, a height, a date, a place. What cannot be read carries its flaw
// in its reader's answer; what was read has that of its range.
#![tactic(auto)]

ghost use Rattle.std.specs.Prelude.{◌≡◌, []};
ghost use Rattle.decimals.specs.Decimals.{admits_decimal};
ghost use Rattle.formats.specs.Formats.{format_of, may_sign};
ghost use Rattle.fields.specs.Table.{range_of};
ghost use Rattle.flaws.specs.Flaws.{ranged};
ghost use Rattle.flaw_parts.specs.Parts.{numbered, flaw_in, flaw_at};

use days::dates::read_date;
use distances::is_whole_filled;
use flaws::{Flaw, all_letters_of, unread_of};
use formats::{Format, read_decimal};
use frequencies::is_unit;
use numeral_writing::{fits_signed, magnitude};
use positions::read_position;
use signed_numerals::read_signed;
use tenths::in_range;

// The flaw of a value that was read: none in its range, else range.
pub fn range_flaw(within: bool) -> Flaw
    ensures { result ≡ ranged within }
{
    if within { Flaw::None } else { Flaw::Range }
}

// 1A and 1Y, the amount of a frequency.
pub fn amount_flaw(s: &[u8]) -> Flaw
    ensures { result ≡ flaw_at 1 [] s.now }
{
    match read_decimal(Format::Frequency, s) {
        Err(flaw) => flaw,
        Ok(None) => Flaw::None,
        Ok(Some(v)) => range_flaw(0 < magnitude(v)),
    }
}

// The unit of an amount: at odds with it is outside the range.
pub fn unit_flaw(p: &[u8], q: &[u8]) -> Flaw
    ensures { result ≡ flaw_at 2 p.now q.now }
{
    if is_unit(p, q) {
        return Flaw::None;
    }
    if q.len() != 1 {
        return unread_of(b"kMG ", q);
    }
    if all_letters_of(b"kMG ", q) {
        Flaw::Range
    } else {
        Flaw::Byte
    }
}

// 8B1, 9A, 9B and 9G, by their formats.
pub fn tenths_flaw(format: Format, s: &[u8]) -> Flaw
    ensures { result ≡ flaw_in (numbered (admits_decimal (may_sign format)) (range_of format) (format_of format)) [] s.now }
{
    match read_decimal(format, s) {
        Err(flaw) => flaw,
        Ok(None) => Flaw::None,
        Ok(Some(v)) => range_flaw(in_range(format, v)),
    }
}

// 4D and 9Y, whole numbers that have to be there.
pub fn whole_flaw(s: &[u8]) -> Flaw
    ensures { result ≡ flaw_at 12 [] s.now }
{
    if is_whole_filled(s) {
        return Flaw::None;
    }
    unread_of(b"0123456789 ", s)
}

// 4Z, the height above sea.
pub fn height_flaw(s: &[u8]) -> Flaw
    ensures { result ≡ flaw_at 13 [] s.now }
{
    match read_signed(s) {
        Err(flaw) => flaw,
        Ok(None) => Flaw::None,
        Ok(Some(z)) => range_flaw(fits_signed(4, z)),
    }
}

// 2C, 2W and 2Z, a date or blank.
pub fn day_flaw(s: &[u8]) -> Flaw
    ensures { result ≡ flaw_at 8 [] s.now }
{
    match read_date(s) {
        Err(flaw) => flaw,
        Ok(_) => Flaw::None,
    }
}

// 4C, the position.
pub fn position_flaw(s: &[u8]) -> Flaw
    ensures { result ≡ flaw_at 11 [] s.now }
{
    match read_position(s) {
        Err(flaw) => flaw,
        Ok(_) => Flaw::None,
    }
}
