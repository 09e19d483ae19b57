// Numbers and frequencies as people read them, put into the lent bytes behind what stands there already.
#![tactic(auto)]

ghost use Rattle.std.specs.Prelude.{◌≡◌, ◌+◌, ◌≤◌, length};
ghost use Rattle.numerals.specs.Numbers.{spell_whole};
ghost use Rattle.printing.specs.Promises.{Appended};
ghost use Rattle.operator_numbers.specs.Frequencies.{digits_in, in_digits, shortened, megahertz, extreme_text};

use numeral_writing::put_whole;
use printing::pieces::put_text;

// The digits of a fraction, and how many there are.
#[derive(Clone, Copy)]
struct Fraction {
    places: usize,
    digits: u64,
}

// Puts in a number in so many columns, and answers where it ends.
pub fn put_columns(out: &mut [u8], start: usize, columns: usize, v: u64) -> usize
    requires { start + columns ≤ length out.old }
    ensures appended { Appended out.old start (spell_whole columns v) out.new result }
    ensures upper_bound { result ≤ start + columns }
{
    let end = start + columns;
    put_whole(&mut out[start..end], v);
    end
}

// How many digits a number has.
fn digits_in(v: u64) -> usize
    ensures { (result ≡ digits_in 19 v) × (result ≤ 20) }
{
    let mut rest = v;
    for count in 1..20 {
        if rest < 10 {
            return count;
        }
        rest /= 10;
    }
    20
}

// Puts in a number in plain decimal, and answers where it ends.
pub fn put_digits_of(out: &mut [u8], start: usize, v: u64) -> usize
    requires { start + 20 ≤ length out.old }
    ensures appended { Appended out.old start (in_digits v) out.new result }
    ensures upper_bound { result ≤ start + 20 }
{
    put_columns(out, start, digits_in(v), v)
}

// The digits of a fraction of eight places without the zeros that end it; one digit stays.
fn without_zeros(fraction: u64) -> Fraction
    ensures { (result ≡ shortened 7 fraction) × (result.places ≤ 8) }
{
    let mut digits = fraction;
    for places in (2..9).rev() {
        if digits % 10 != 0 {
            return Fraction { places, digits };
        }
        digits /= 10;
    }
    Fraction { places: 1, digits }
}

// Puts in a frequency in megahertz, and answers where it ends.
fn put_megahertz(out: &mut [u8], start: usize, v: u64) -> usize
    requires { start + 29 ≤ length out.old }
    ensures appended { Appended out.old start (megahertz v) out.new result }
    ensures upper_bound { result ≤ start + 29 }
{
    let whole_end = put_digits_of(out, start, v / 100000000);
    let point_end = put_text(out, whole_end, b".");
    let short = without_zeros(v % 100000000);
    put_columns(out, point_end, short.places, short.digits)
}

// Puts in the words before a frequency, the frequency in hundredths of a hertz and in megahertz; nothing where there is none. Answers where that ends.
pub fn put_extreme(out: &mut [u8], start: usize, label: &[u8], a: Option<u64>) -> usize
    requires { start + (length label.now + 54) ≤ length out.old }
    ensures appended { Appended out.old start (extreme_text label.now a) out.new result }
    ensures upper_bound { result ≤ start + (length label.now + 54) }
{
    match a {
        None => start,
        Some(v) => {
            let label_end = put_text(out, start, label);
            let digits_end = put_digits_of(out, label_end, v);
            let space_end = put_text(out, digits_end, b" ");
            let end = put_megahertz(out, space_end, v);
            put_text(out, end, b" MHz")
        }
    }
}
