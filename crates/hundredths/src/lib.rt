// Frequencies in hundredths of a hertz, so that any two compare, and the lower and the higher of two.
#![tactic(auto)]

ghost use Rattle.std.specs.Prelude.{◌≡◌, true};
ghost use Rattle.frequencies.specs.Frequencies.{frequency_fits};
ghost use Rattle.hundredths.specs.Hundredths.{step_of, hundredths_of, lower_of, higher_of};

use frequencies::{Frequency, Hertz};

// How many hundredths of a hertz a step of the field is.
fn step_of(unit: Hertz) -> u64
    ensures { result ≡ step_of unit }
{
    match unit {
        Hertz::Kilo => 1,
        Hertz::Mega => 1000,
        Hertz::Giga => 1000000,
    }
}

// A frequency that can stand, in hundredths of a hertz.
pub fn hundredths_of(v: Option<Frequency>) -> Option<u64>
    requires { frequency_fits v ≡ true }
    ensures { result ≡ hundredths_of v }
{
    let f = v?;
    Some(f.amount * step_of(f.unit))
}

// The lower of v and a frequency that there may be.
pub fn lower(v: u64, a: Option<u64>) -> Option<u64>
    ensures { result ≡ lower_of v a }
{
    match a {
        None => Some(v),
        Some(u) => {
            if v < u {
                return Some(v);
            }
            Some(u)
        }
    }
}

// The higher of v and a frequency that there may be.
pub fn higher(v: u64, a: Option<u64>) -> Option<u64>
    ensures { result ≡ higher_of v a }
{
    match a {
        None => Some(v),
        Some(u) => {
            if u < v {
                return Some(v);
            }
            Some(u)
        }
    }
}

// The same, put together anew. A copy would take along the bytes between the case and the number, which were never written together,
// and wait for them.
pub fn anew(a: Option<u64>) -> Option<u64>
    ensures { result ≡ a }
{
    match a {
        None => None,
        Some(v) => Some(v),
    }
}
