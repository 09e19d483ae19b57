// Whether a number stands in its one spelling, told by its columns without reading it.
#![tactic(auto)]

ghost use Rattle.std.specs.Prelude.{◌≡◌, true, ◌+◌, ◌<◌, length};
ghost use Rattle.formats.specs.Formats.{digits_before, digits_after, may_sign, format_width};
ghost use Rattle.formats.specs.Tenths.{tenths_of, spell_tenths};
ghost use Rattle.positions.specs.Positions.{position_good, position_of, spell_position};
ghost use Rattle.own_numbers.specs.OwnNumbers.{digits_around, signed_around};

use columns::sets::Set;
use columns::texts::{all_in, equal};
use formats::Format;

// Whether a mark stands behind a digits, and behind it digits alone.
fn is_around(mark: u8, a: usize, t: &[u8]) -> bool
    requires { a < length t.now }
    ensures { result ≡ digits_around mark a t.now }
{
    if t[a] != mark {
        return false;
    }
    if !all_in(Set::Digit, &t[..a]) {
        return false;
    }
    all_in(Set::Digit, &t[a + 1..])
}

// Whether digits are around the point behind a space, or behind minus where they do not say the given spelling of zero.
fn is_signed_around(a: usize, none: &[u8], s: &[u8]) -> bool
    requires { a + 1 < length s.now }
    ensures { result ≡ signed_around a none.now s.now }
{
    let t = &s[1..];
    if !is_around(b'.', a, t) {
        return false;
    }
    let sign = s[0];
    if sign == b' ' {
        return true;
    }
    if sign != b'-' {
        return false;
    }
    !equal(none, t)
}

// Whether a decimal is told to stand in its one spelling without reading it.
pub fn is_own_decimal(format: Format, s: &[u8]) -> bool
    requires { length s.now ≡ format_width format }
    ensures { result ≡ true → spell_tenths (digits_before format) (digits_after format) (may_sign format) (tenths_of (digits_before format) (digits_after format) (may_sign format) s.now) ≡ s.now }
{
    match format {
        Format::Frequency => is_around(b'.', 5, s),
        Format::Power => is_signed_around(3, b"000.0", s),
        Format::Azimuth => is_around(b'.', 3, s),
        Format::Elevation => is_signed_around(2, b"00.0", s),
        Format::Gain => is_around(b'.', 2, s),
    }
}

// Whether 4C, which keeps its rule, is told to stand in its one spelling without reading it: east and north, with digits in all its places.
pub fn is_own_position(s: &[u8]) -> bool
    requires { position_good s.now ≡ true }
    ensures { result ≡ true → spell_position (position_of s.now) ≡ s.now }
{
    if !is_around(b'E', 3, &s[0..8]) {
        return false;
    }
    is_around(b'N', 2, &s[8..15])
}
