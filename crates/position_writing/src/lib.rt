// Positions written: whether a typed position is on the ground, and its fifteen columns.
#![tactic(auto)]

ghost use Rattle.std.specs.Prelude.{◌≡◌, cond, [], ◌∷◌, ◌+◌, ◌/◌, ◌%◌, length, nat_abs};
ghost use Rattle.numerals.specs.Numbers.{is_negative, spell_digits};
ghost use Rattle.positions.specs.Positions.{position_fits, spell_position};

use numeral_writing::{is_negative, magnitude, put_whole};
use positions::Position;

// Whether a position is on the ground: at most 180 degrees east or west, and 90 north or south.
pub fn fits_position(v: Position) -> bool
    ensures { result ≡ position_fits v }
{
    if magnitude(v.east) <= 648000 {
        magnitude(v.north) <= 324000
    } else {
        false
    }
}

// The letter of one half.
fn letter_of(plus: u8, minus: u8, v: i64) -> u8
    ensures { result ≡ cond (is_negative v) minus plus }
{
    if is_negative(v) { minus } else { plus }
}

// Writes one half with d columns of degrees, from the last number to the first.
fn put_arc(s: &mut [u8], d: usize, plus: u8, minus: u8, v: i64)
    requires { length s.old ≡ d + 5 }
    ensures { s.new ≡ spell_digits d (nat_abs v / 3600) (cond (is_negative v) minus plus ∷ spell_digits 2 (nat_abs v / 60 % 60) (spell_digits 2 (nat_abs v % 60) [])) }
{
    let n = magnitude(v);
    put_whole(&mut s[d + 3..d + 5], n % 60);
    put_whole(&mut s[d + 1..d + 3], n / 60 % 60);
    s[d] = letter_of(plus, minus, v);
    put_whole(&mut s[0..d], n / 3600);
}

// Writes a position in its fifteen columns.
pub fn put_position(s: &mut [u8], v: Position)
    requires { length s.old ≡ 15 }
    ensures { s.new ≡ spell_position v }
{
    put_arc(&mut s[0..8], 3, b'E', b'W', v.east);
    put_arc(&mut s[8..15], 2, b'N', b'S', v.north);
}
