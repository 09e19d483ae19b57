// The fields that are kept as their bytes: codes, choices, names and references.
#![tactic(auto)]

ghost use Rattle.std.specs.Prelude.{◌≡◌, ◌||◌};
ghost use Rattle.columns.specs.Texts.{same};
ghost use Rattle.fields.specs.Table.{fits_at, is_user};

use columns::sets::{Set, is_upper};
use columns::texts::{all_in, equal, is_either, is_framed};

// One of four texts.
fn is_any(s: &[u8], a: &[u8], b: &[u8], c: &[u8], d: &[u8]) -> bool
    ensures { result ≡ (same a.now s.now || same b.now s.now || (same c.now s.now || same d.now s.now)) }
{
    if is_either(s, a, b) {
        return true;
    }
    is_either(s, c, d)
}

// 1Z, the category of a frequency: 1 to 8.
pub fn is_category(c: u8) -> bool
    ensures { result ≡ fits_at 3 c }
{
    match c {
        b'1'..=b'8' => true,
        _ => false,
    }
}

// 6A, the class of the station: FB, FL, ML.
pub fn is_class(s: &[u8]) -> bool
    ensures { result ≡ fits_at 4 s.now }
{
    if is_either(s, b"FB", b"FL") {
        return true;
    }
    equal(b"ML", s)
}

// 6B, the nature of the service: CO, CP, CR, CV, OT.
pub fn is_service(s: &[u8]) -> bool
    ensures { result ≡ fits_at 5 s.now }
{
    if is_any(s, b"CO", b"CP", b"CR", b"CV") {
        return true;
    }
    equal(b"OT", s)
}

// A letter of 6Z: A-Z without J.
fn is_user(c: u8) -> bool
    ensures { result ≡ is_user c }
{
    match c {
        b'A'..=b'I' | b'K'..=b'Z' => true,
        _ => false,
    }
}

// 6Z, the category of users: two letters, J never; the second may be a space.
pub fn is_users(s: &[u8]) -> bool
    ensures { result ≡ fits_at 6 s.now }
{
    if s.len() != 2 {
        return false;
    }
    if !is_user(s[0]) {
        return false;
    }
    if s[1] == b' ' {
        return true;
    }
    is_user(s[1])
}

// 10Z, the carrier: 0 or 1.
pub fn is_carrier(c: u8) -> bool
    ensures { result ≡ fits_at 7 c }
{
    match c {
        b'0'..=b'1' => true,
        _ => false,
    }
}

// 4A, the name of the station: four digits, an underscore, and fifteen bytes of the name. The underscore is asked with these once more, sixteen bytes at once.
pub fn is_station_name(s: &[u8]) -> bool
    ensures { result ≡ fits_at 9 s.now }
{
    if s.len() != 20 {
        return false;
    }
    all_in(Set::Digit, &s[0..4]) & (s[4] == b'_') & all_in(Set::Name, &s[4..20])
}

// 4B, the country: one to three letters, then spaces.
pub fn is_country(s: &[u8]) -> bool
    ensures { result ≡ fits_at 10 s.now }
{
    if s.len() != 3 {
        return false;
    }
    if !is_upper(s[0]) {
        return false;
    }
    if s[1] == b' ' {
        return s[2] == b' ';
    }
    if !is_upper(s[1]) {
        return false;
    }
    if s[2] == b' ' {
        return true;
    }
    is_upper(s[2])
}

// 8B2, what the power refers to: E or I.
pub fn is_basis(c: u8) -> bool
    ensures { result ≡ fits_at 16 c }
{
    match c {
        b'E' | b'I' => true,
        _ => false,
    }
}

// 9D, the polarisation: H, V, SR, SL, CR, CL, D, M; one letter is followed by a space.
pub fn is_polarisation(s: &[u8]) -> bool
    ensures { result ≡ fits_at 19 s.now }
{
    if is_any(s, b"H ", b"V ", b"SR", b"SL") {
        return true;
    }
    is_any(s, b"CR", b"CL", b"D ", b"M ")
}

// 9XH and 9XV, the types of antenna: three digits, two letters, two digits.
pub fn is_antenna(s: &[u8]) -> bool
    ensures { result ≡ fits_at 22 s.now }
{
    if s.len() != 7 {
        return false;
    }
    is_framed(s, b"000AA00", b"999ZZ99")
}

// 13Y, the status of the coordination: F or B.
pub fn is_status(c: u8) -> bool
    ensures { result ≡ fits_at 27 c }
{
    match c {
        b'F' | b'B' => true,
        _ => false,
    }
}

// 13X, the reference: AUT, four digits, five bytes of the narrow set, three digits.
pub fn is_reference(s: &[u8]) -> bool
    ensures { result ≡ fits_at 30 s.now }
{
    if s.len() != 15 {
        return false;
    }
    equal(b"AUT", &s[0..3])
        & all_in(Set::Digit, &s[3..7])
        & all_in(Set::Narrow, &s[7..12])
        & all_in(Set::Digit, &s[12..15])
}
