// What is wrong with a field that is kept as its bytes: none of these has a range.
#![tactic(auto)]

ghost use Rattle.std.specs.Prelude.{◌≡◌, cond, []};
ghost use Rattle.flaw_parts.specs.Parts.{flaw_at};
ghost use Rattle.flaws.specs.declared.Flaw.TheVariants as flaw;

use columns::sets::Set;
use emissions::is_emission;
use flaws::{Flaw, unread_in, unread_of};
use remarks::is_remarks;
use symbols::{
    is_antenna, is_class, is_country, is_polarisation, is_reference, is_service, is_station_name,
    is_users,
};

// 1Z, 10Z, 8B2 and 13Y, fields of one byte: it is admitted, or it is not.
pub fn byte_flaw(admitted: bool) -> Flaw
    ensures { result ≡ cond admitted flaw.None flaw.Byte }
{
    if admitted { Flaw::None } else { Flaw::Byte }
}

// 6A, the class of the station.
pub fn class_flaw(s: &[u8]) -> Flaw
    ensures { result ≡ flaw_at 4 [] s.now }
{
    if is_class(s) {
        return Flaw::None;
    }
    unread_of(b"FBFLML", s)
}

// 6B, the nature of the service.
pub fn service_flaw(s: &[u8]) -> Flaw
    ensures { result ≡ flaw_at 5 [] s.now }
{
    if is_service(s) {
        return Flaw::None;
    }
    unread_of(b"COCPCRCVOT", s)
}

// 6Z, the category of users.
pub fn users_flaw(s: &[u8]) -> Flaw
    ensures { result ≡ flaw_at 6 [] s.now }
{
    if is_users(s) {
        return Flaw::None;
    }
    unread_of(b"ABCDEFGHIKLMNOPQRSTUVWXYZ ", s)
}

// 4A, the name of the station.
pub fn name_flaw(s: &[u8]) -> Flaw
    ensures { result ≡ flaw_at 9 [] s.now }
{
    if is_station_name(s) {
        return Flaw::None;
    }
    unread_in(Set::Name, s)
}

// 4B, the country.
pub fn country_flaw(s: &[u8]) -> Flaw
    ensures { result ≡ flaw_at 10 [] s.now }
{
    if is_country(s) {
        return Flaw::None;
    }
    unread_of(b"ABCDEFGHIJKLMNOPQRSTUVWXYZ ", s)
}

// 7A, the designation of an emission.
pub fn emission_flaw(s: &[u8]) -> Flaw
    ensures { result ≡ flaw_at 14 [] s.now }
{
    if is_emission(s) {
        return Flaw::None;
    }
    unread_of(b"0123456789ABCDEFGHJKLMNPQRTVWX ", s)
}

// 9D, the polarisation.
pub fn polarisation_flaw(s: &[u8]) -> Flaw
    ensures { result ≡ flaw_at 19 [] s.now }
{
    if is_polarisation(s) {
        return Flaw::None;
    }
    unread_of(b"H V SRSLCRCLD M ", s)
}

// 9XH and 9XV, the types of antenna.
pub fn antenna_flaw(s: &[u8]) -> Flaw
    ensures { result ≡ flaw_at 22 [] s.now }
{
    if is_antenna(s) {
        return Flaw::None;
    }
    unread_of(b"0123456789ABCDEFGHIJKLMNOPQRSTUVWXYZ", s)
}

// 13Z, the remarks.
pub fn remarks_flaw(s: &[u8]) -> Flaw
    ensures { result ≡ flaw_at 26 [] s.now }
{
    if is_remarks(s) {
        return Flaw::None;
    }
    unread_in(Set::Text, s)
}

// 13X, the reference.
pub fn reference_flaw(s: &[u8]) -> Flaw
    ensures { result ≡ flaw_at 30 [] s.now }
{
    if is_reference(s) {
        return Flaw::None;
    }
    unread_in(Set::Narrow, s)
}
