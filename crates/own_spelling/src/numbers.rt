// Numbers in their own columns, written in the one spelling where they stand in another.
ghost use Rattle.std.specs.Prelude.{◌≡◌, true, ◌≤◌, length};
ghost use Rattle.numerals.specs.Numbers.{whole_of, amount, spell_whole};
ghost use Rattle.formats.specs.Formats.{digits_before, digits_after, may_sign, format_width};
ghost use Rattle.formats.specs.Tenths.{tenths_of, spell_tenths};
ghost use Rattle.distances.specs.Distances.{height_of, spell_height};
ghost use Rattle.positions.specs.Positions.{position_good, position_of, spell_position};

use columns::sets::Set;
use columns::texts::all_in;
use distances::{put_height, read_height};
use formats::Format;
use numeral_writing::put_whole;
use numerals::amount_in;
use own_numbers::{is_own_decimal, is_own_position};
use position_writing::put_position;
use positions::position_in;
use tenths::{put_tenths, read_tenths};

// Writes what a decimal's columns say, or blank, in its one spelling.
pub(crate) fn respell_decimal(format: Format, s: &mut [u8])
    requires { length s.old ≡ format_width format }
    ensures { s.new ≡ spell_tenths (digits_before format) (digits_after format) (may_sign format) (tenths_of (digits_before format) (digits_after format) (may_sign format) s.old) }
{
    if is_own_decimal(format, s) {
        return;
    }
    let v = read_tenths(format, s);
    put_tenths(format, s, v);
}

// Writes the whole number that columns say, 0 where there is none, with a digit in each.
pub(crate) fn respell_whole(s: &mut [u8])
    requires { (1 ≤ length s.old) × (length s.old ≤ 18) }
    ensures { s.new ≡ spell_whole (length s.old) (amount (whole_of s.old)) }
{
    if all_in(Set::Digit, s) {
        return;
    }
    let v = amount_in(s);
    put_whole(s, v);
}

// Writes the height above sea that its columns say, or blank, in its one spelling.
pub(crate) fn respell_height(s: &mut [u8])
    requires { length s.old ≡ 4 }
    ensures { s.new ≡ spell_height (height_of s.old) }
{
    if all_in(Set::Digit, s) {
        return;
    }
    let v = read_height(s);
    put_height(s, v);
}

// Writes 4C, which keeps its rule, in its one spelling.
pub(crate) fn respell_position(s: &mut [u8])
    requires { position_good s.old ≡ true }
    ensures { s.new ≡ spell_position (position_of s.old) }
{
    if is_own_position(s) {
        return;
    }
    let v = position_in(s);
    put_position(s, v);
}
