// Frequencies: 1A and 1Y with their units.
#![tactic(auto)]

ghost use Rattle.std.specs.Prelude.{◌≡◌, true, length};
ghost use Rattle.columns.specs.Sets.{among};
ghost use Rattle.frequencies.specs.Frequencies.{amount_good, unit_good, unit_of, unit_letter, frequency_of, frequency_fits, spell_amount, spell_unit};

use columns::sets::Set;
use columns::texts::{all_in, byte, is_blank, write_blank};
use decimals::put_magnitude;
use formats::{Format, read_decimal};
use numeral_writing::{fits_whole, magnitude};

// What a frequency counts 1/100000 of: a kilohertz, a megahertz or a gigahertz.
#[derive(Clone, Copy)]
pub enum Hertz {
    Kilo,
    Mega,
    Giga,
}

// A frequency with its unit: it counts 1/100000 of it.
#[derive(Clone, Copy)]
pub struct Frequency {
    pub amount: u64,
    pub unit: Hertz,
}

// Whether an amount stands in its one spelling with a digit above 0 in the three places before the point: it is a decimal above zero.
fn is_plain_amount(p: &[u8]) -> bool
    ensures { result ≡ true → amount_good p.now ≡ true }
{
    if p.len() != 11 {
        return false;
    }
    if p[5] != b'.' {
        return false;
    }
    all_in(Set::Digit, &p[0..5])
        & all_in(Set::Digit, &p[6..11])
        & ((p[2] != b'0') | (p[3] != b'0') | (p[4] != b'0'))
}

// Whether an amount is blank, or a decimal above zero.
pub fn is_amount(p: &[u8]) -> bool
    ensures { result ≡ amount_good p.now }
{
    if is_plain_amount(p) {
        return true;
    }
    match read_decimal(Format::Frequency, p) {
        Ok(Some(v)) => 0 < magnitude(v),
        Ok(None) => true,
        Err(_) => false,
    }
}

// Whether a byte is the letter of a unit.
fn is_letter(c: u8) -> bool
    ensures { result ≡ among "kMG" c }
{
    match c {
        b'k' | b'M' | b'G' => true,
        _ => false,
    }
}

// Whether a unit stands beside its amount: a letter where the amount is filled, else a space.
pub fn is_unit(p: &[u8], q: &[u8]) -> bool
    ensures { result ≡ unit_good p.now q.now }
{
    if q.len() != 1 {
        return false;
    }
    let c = q[0];
    if is_blank(p) {
        return c == b' ';
    }
    is_letter(c)
}

// The unit of a letter.
pub fn unit_of(c: u8) -> Hertz
    ensures { result ≡ unit_of c }
{
    if c == b'k' {
        return Hertz::Kilo;
    }
    if c == b'M' {
        return Hertz::Mega;
    }
    Hertz::Giga
}

// The letter of a unit.
pub fn unit_letter(u: Hertz) -> u8
    ensures { result ≡ unit_letter u }
{
    match u {
        Hertz::Kilo => b'k',
        Hertz::Mega => b'M',
        Hertz::Giga => b'G',
    }
}

// What an amount and its unit say; what cannot be read is never taken for a frequency.
pub fn read_frequency(p: &[u8], q: &[u8]) -> Option<Frequency>
    ensures { result ≡ frequency_of p.now q.now }
{
    let v = read_decimal(Format::Frequency, p).unwrap_or(None)?;
    Some(Frequency {
        amount: magnitude(v),
        unit: unit_of(byte(q, 0)),
    })
}

// Whether a frequency or its absence can stand: above zero, and of ten digits at most.
pub fn fits_frequency(v: Option<Frequency>) -> bool
    ensures { result ≡ frequency_fits v }
{
    match v {
        None => true,
        Some(f) => {
            if !fits_whole(10, f.amount) {
                return false;
            }
            0 < f.amount
        }
    }
}

// Writes the amount of a frequency, or blank, in its eleven columns.
pub fn put_amount(s: &mut [u8], v: Option<Frequency>)
    requires { length s.old ≡ 11 }
    ensures { s.new ≡ spell_amount v }
{
    match v {
        None => write_blank(s),
        Some(f) => put_magnitude(s, 0, 5, 5, f.amount),
    }
}

// Writes the letter of a frequency's unit, or a space, in its one column.
pub fn put_unit(s: &mut [u8], v: Option<Frequency>)
    requires { length s.old ≡ 1 }
    ensures { s.new ≡ spell_unit v }
{
    match v {
        None => s[0] = b' ',
        Some(f) => s[0] = unit_letter(f.unit),
    }
}
