// Distances: the radius 4D, and the heights 4Z and 9Y. They are kept apart by their types.
#![tactic(auto)]

ghost use Rattle.std.specs.Prelude.{◌≡◌, length};
ghost use Rattle.numerals.specs.Numbers.{whole_of, whole_filled};
ghost use Rattle.distances.specs.Distances.{radius_of, radius_fits, spell_radius, ground_of, ground_fits, spell_ground, height_good, height_of, height_fits, spell_height};

use columns::texts::write_blank;
use numeral_writing::{fits_signed, fits_whole, is_negative, magnitude, put_signed, put_whole};
use numerals::{amount_of, read_whole, says_number};
use signed_numerals::read_signed;

// A radius, 4D.
#[derive(Clone, Copy)]
pub struct Kilometres(pub u64);

// A height above sea, 4Z, or above ground, 9Y.
#[derive(Clone, Copy)]
pub struct Metres(pub i64);

// The rule on the columns of 4D and 9Y: a whole number is there.
pub fn is_whole_filled(s: &[u8]) -> bool
    ensures { result ≡ whole_filled (whole_of s.now) }
{
    says_number(read_whole(s))
}

// The radius that its columns say.
pub fn read_radius(s: &[u8]) -> Kilometres
    ensures { result ≡ radius_of s.now }
{
    Kilometres(amount_of(read_whole(s)))
}

// Whether a radius has its digits' places in five columns.
pub fn fits_radius(v: Kilometres) -> bool
    ensures { result ≡ radius_fits v }
{
    fits_whole(5, v.0)
}

// Writes a radius in its five columns.
pub fn put_radius(s: &mut [u8], v: Kilometres)
    requires { length s.old ≡ 5 }
    ensures { s.new ≡ spell_radius v }
{
    put_whole(s, v.0);
}

// The height above ground that its columns say.
pub fn read_ground(s: &[u8]) -> Metres
    ensures { result ≡ ground_of s.now }
{
    let n = amount_of(read_whole(s));
    Metres(n as i64)
}

// Whether a height above ground is not below zero and has its digits' places in four columns.
pub fn fits_ground(v: Metres) -> bool
    ensures { result ≡ ground_fits v }
{
    if is_negative(v.0) {
        return false;
    }
    fits_whole(4, magnitude(v.0))
}

// Writes a height above ground in its four columns.
pub fn put_ground(s: &mut [u8], v: Metres)
    requires { length s.old ≡ 4 }
    ensures { s.new ≡ spell_ground v }
{
    put_whole(s, magnitude(v.0));
}

// The rule on the columns of 4Z: blank, or a height from -999 to 9999.
pub fn is_height(s: &[u8]) -> bool
    ensures { result ≡ height_good s.now }
{
    match read_signed(s) {
        Ok(Some(z)) => fits_signed(4, z),
        Ok(None) => true,
        Err(_) => false,
    }
}

// The height above sea that its columns say.
pub fn read_height(s: &[u8]) -> Option<Metres>
    ensures { result ≡ height_of s.now }
{
    let z = read_signed(s).unwrap_or(None)?;
    Some(Metres(z))
}

// Whether a height above sea or its absence can stand.
pub fn fits_height(v: Option<Metres>) -> bool
    ensures { result ≡ height_fits v }
{
    match v {
        None => true,
        Some(m) => fits_signed(4, m.0),
    }
}

// Writes a height above sea, or blank, in its four columns.
pub fn put_height(s: &mut [u8], v: Option<Metres>)
    requires { length s.old ≡ 4 }
    ensures { s.new ≡ spell_height v }
{
    match v {
        None => write_blank(s),
        Some(m) => put_signed(s, m.0),
    }
}
