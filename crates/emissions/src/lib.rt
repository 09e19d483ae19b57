// The designation of an emission, 7A: four places of bandwidth, then one symbol a place.
#![tactic(auto)]

ghost use Rattle.std.specs.Prelude.{◌≡◌};
ghost use Rattle.columns.specs.Sets.{is_digit, among};
ghost use Rattle.columns.specs.Texts.{how_many};
ghost use Rattle.emissions.specs.Emission.{is_modulation, is_signal, is_information, is_detail, is_multiplex, detail_good, bandwidth_good, emission_good};

use columns::sets::is_digit;

// How the carrier is modulated.
pub fn is_modulation(c: u8) -> bool
    ensures { result ≡ is_modulation c }
{
    match c {
        b'A'..=b'D' | b'F'..=b'H' | b'J'..=b'N' | b'P'..=b'R' | b'V'..=b'X' => true,
        _ => false,
    }
}

// What the signal is that modulates it.
pub fn is_signal(c: u8) -> bool
    ensures { result ≡ is_signal c }
{
    match c {
        b'0'..=b'3' | b'7'..=b'9' | b'X' => true,
        _ => false,
    }
}

// What kind of information is sent.
pub fn is_information(c: u8) -> bool
    ensures { result ≡ is_information c }
{
    match c {
        b'A'..=b'F' | b'N' | b'W'..=b'X' => true,
        _ => false,
    }
}

// A detail of the signal, the eighth place.
pub fn is_detail(c: u8) -> bool
    ensures { result ≡ is_detail c }
{
    match c {
        b'A'..=b'H' | b'J'..=b'N' | b'W'..=b'X' => true,
        _ => false,
    }
}

// The kind of multiplex, the ninth place.
pub fn is_multiplex(c: u8) -> bool
    ensures { result ≡ is_multiplex c }
{
    match c {
        b'C' | b'F' | b'N' | b'T' | b'W'..=b'X' => true,
        _ => false,
    }
}

// The letter of a bandwidth: hertz, kilohertz, megahertz or gigahertz.
fn is_bandwidth_letter(c: u8) -> bool
    ensures { result ≡ among "HKMG" c }
{
    match c {
        b'G'..=b'H' | b'K' | b'M' => true,
        _ => false,
    }
}

// What may not stand first in a bandwidth.
fn is_late(c: u8) -> bool
    ensures { result ≡ among "0KMG" c }
{
    match c {
        b'0' | b'G' | b'K' | b'M' => true,
        _ => false,
    }
}

// How many places hold a digit.
fn digits(s: &[u8]) -> usize
    ensures { result ≡ how_many is_digit s.now }
{
    s.iter().filter(|c| is_digit(**c)).count()
}

// How many places hold a letter.
fn letters(s: &[u8]) -> usize
    ensures { result ≡ how_many (among "HKMG") s.now }
{
    s.iter().filter(|c| is_bandwidth_letter(**c)).count()
}

// The bandwidth: three digits and one letter, which says the decimal point's place and the unit.
pub fn is_bandwidth(s: &[u8]) -> bool
    ensures { result ≡ bandwidth_good s.now }
{
    if s.len() != 4 {
        return false;
    }
    if digits(s) != 3 {
        return false;
    }
    if letters(s) != 1 {
        return false;
    }
    !is_late(s[0])
}

// The last two places: both blank, or a detail, then blank or a multiplex.
fn is_end(x: u8, y: u8) -> bool
    ensures { result ≡ detail_good x y }
{
    if x == b' ' {
        return y == b' ';
    }
    if !is_detail(x) {
        return false;
    }
    if y == b' ' {
        return true;
    }
    is_multiplex(y)
}

// 7A, the designation of an emission.
pub fn is_emission(s: &[u8]) -> bool
    ensures { result ≡ emission_good s.now }
{
    if s.len() != 9 {
        return false;
    }
    if !is_bandwidth(&s[0..4]) {
        return false;
    }
    if !is_modulation(s[4]) {
        return false;
    }
    if !is_signal(s[5]) {
        return false;
    }
    if !is_information(s[6]) {
        return false;
    }
    is_end(s[7], s[8])
}
