// The flaw of a field by the numbers of its entry in a table: one function for each kind of entry, over any length, lowest, highest and blank.
#![tactic(auto)]

ghost use Rattle.std.specs.Prelude.{◌≡◌, ◌&&◌, ◌≤◌, leb};
ghost use Rattle.columns.specs.Texts.{every};
ghost use Rattle.entries.specs.Entries.{one_byte, between_entry, either_entry, unit_entry, plain_decimal, signed_decimal, kind_flaw, entry_flaw};

use columns::texts::is_blank;
use flaws::{Flaw, all_letters_of};
use formats::Format;
use number_flaws::{day_flaw, position_flaw};
use spans::{decimal_entry, height_entry, whole_entry};
use symbol_flaws::{
    antenna_flaw, class_flaw, country_flaw, emission_flaw, name_flaw, polarisation_flaw,
    reference_flaw, remarks_flaw, service_flaw, users_flaw,
};

// The flaw of a field of one byte, by its length and whether its bytes are admitted.
fn one_byte(n: usize, admitted: bool) -> Flaw
    ensures { result ≡ one_byte n admitted }
{
    if !admitted {
        return Flaw::Byte;
    }
    if n == 1 {
        return Flaw::None;
    }
    Flaw::Shape
}

// Whether a byte is from the lowest to the highest; these are a table's numbers, which columns::sets::is_between, of bytes, doesn't take.
fn is_between(low: usize, high: usize, c: u8) -> bool
    ensures { result ≡ leb low c && leb c high }
{
    let n = usize::from(c);
    (low <= n) & (n <= high)
}

// Whether every byte of a text is.
fn all_between(low: usize, high: usize, s: &[u8]) -> bool
    ensures { result ≡ every (λ c. leb low c && leb c high) s.now }
{
    s.iter().all(|c| is_between(low, high, *c))
}

// A byte from the lowest to the highest.
fn between_entry(low: usize, high: usize, s: &[u8]) -> Flaw
    ensures { result ≡ between_entry low high s.now }
{
    one_byte(s.len(), all_between(low, high, s))
}

// One of two bytes.
fn either_entry(low: usize, high: usize, s: &[u8]) -> Flaw
    ensures { result ≡ either_entry low high s.now }
{
    let letters = [(low % 256) as u8, (high % 256) as u8];
    one_byte(s.len(), all_letters_of(&letters, s))
}

// A unit's letter or a space.
fn unit_entry(s: &[u8]) -> Flaw
    ensures { result ≡ unit_entry s.now }
{
    one_byte(s.len(), all_letters_of(b"kMG ", s))
}

// Kinds 13 to 19: name, country, 4C, 7A, polarisation, type of antenna, reference; above them there is none.
fn last_kinds(kind: usize, w: usize, low: usize, high: usize, s: &[u8]) -> Flaw
    requires { 13 ≤ kind }
    ensures { result ≡ kind_flaw kind w low high s.now }
{
    match kind {
        13 => name_flaw(s),
        14 => country_flaw(s),
        15 => position_flaw(s),
        16 => emission_flaw(s),
        17 => polarisation_flaw(s),
        18 => antenna_flaw(s),
        19 => reference_flaw(s),
        _ => Flaw::Shape,
    }
}

// Kinds 7 to 12: whole number, byte from lowest to highest, one of two bytes, class of station, nature of service, category of users.
fn middle_kinds(kind: usize, w: usize, low: usize, high: usize, s: &[u8]) -> Flaw
    requires { 7 ≤ kind }
    ensures { result ≡ kind_flaw kind w low high s.now }
{
    match kind {
        7 => whole_entry(low, high, s),
        8 => between_entry(low, high, s),
        9 => either_entry(low, high, s),
        10 => class_flaw(s),
        11 => service_flaw(s),
        12 => users_flaw(s),
        _ => last_kinds(kind, w, low, high, s),
    }
}

// A decimal without a sign: four columns have two digits before the point, others three.
fn plain_decimal(w: usize, low: usize, high: usize, s: &[u8]) -> Flaw
    ensures { result ≡ plain_decimal w low high s.now }
{
    if w == 4 {
        return decimal_entry(Format::Gain, false, low, high, s);
    }
    decimal_entry(Format::Azimuth, false, low, high, s)
}

// A decimal with a sign: five columns have two digits before the point, others three.
fn signed_decimal(w: usize, low: usize, high: usize, s: &[u8]) -> Flaw
    ensures { result ≡ signed_decimal w low high s.now }
{
    if w == 5 {
        return decimal_entry(Format::Elevation, true, low, high, s);
    }
    decimal_entry(Format::Power, true, low, high, s)
}

// The flaw of a field by the number of its kind.
fn kind_flaw(kind: usize, w: usize, low: usize, high: usize, s: &[u8]) -> Flaw
    ensures { result ≡ kind_flaw kind w low high s.now }
{
    match kind {
        0 => remarks_flaw(s),
        1 => decimal_entry(Format::Frequency, false, low, high, s),
        2 => plain_decimal(w, low, high, s),
        3 => signed_decimal(w, low, high, s),
        4 => height_entry(low, high, s),
        5 => day_flaw(s),
        6 => unit_entry(s),
        _ => middle_kinds(kind, w, low, high, s),
    }
}

// The flaw of a field by its entry: where the entry and its kind differ about blank, the entry decides.
pub fn entry_flaw(kind: usize, w: usize, low: usize, high: usize, allowed: usize, s: &[u8]) -> Flaw
    ensures { result ≡ entry_flaw kind w low high allowed s.now }
{
    let said = kind_flaw(kind, w, low, high, s);
    if !is_blank(s) {
        return said;
    }
    if kind < 7 {
        if allowed == 1 {
            return said;
        }
        return Flaw::Shape;
    }
    if allowed == 1 {
        return Flaw::None;
    }
    said
}
