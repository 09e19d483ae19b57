// What is wrong with a typed station: its first broken code, and the flaw of the one value that the code names.
#![tactic(auto)]

ghost use Rattle.std.specs.Prelude.{◌≡◌, ◌-◌, ◌≤◌, get_or};
ghost use Rattle.flaws.specs.declared.Flaw.TheVariants as flaw;
ghost use Rattle.typed_flaws.specs.Groups.{site_flaws, emission_flaws, coordination_flaws};
ghost use Rattle.typed_flaws.specs.Calls.{flaw_typed};
ghost use Rattle.typed_flaws.specs.Promises.{TypedStationExplained};

use days::dates::fits_day;
use distances::{fits_height, fits_radius};
use flaws::Flaw;
use formats::Format;
use frequencies::fits_frequency;
use number_flaws::range_flaw;
use position_writing::fits_position;
use station::Station;
use station::typed::typed_code;
use station_groups::{Coordination, Emission, Site};
use symbol_flaws::{
    byte_flaw, country_flaw, emission_flaw, name_flaw, reference_flaw, remarks_flaw,
};
use symbols::{is_basis, is_status};
use tenths::fits_tenths;
use typed_antenna_flaws::typed_antenna_flaw;
use typed_channel_flaws::typed_channel_flaw;

// The first broken code of a typed station, and its flaw.
#[derive(Clone, Copy)]
pub struct TypedExplained {
    pub code: u8,
    pub flaw: Flaw,
}

// Codes 8 to 13.
fn typed_site_flaw(s: Site, code: u8) -> Flaw
    requires { 8 ≤ code }
    ensures { result ≡ get_or (site_flaws s) (code - 8) flaw.Between }
{
    match code {
        8 => range_flaw(fits_day(s.started)),
        9 => name_flaw(&s.name),
        10 => country_flaw(&s.country),
        11 => range_flaw(fits_position(s.position)),
        12 => range_flaw(fits_radius(s.radius)),
        13 => range_flaw(fits_height(s.height)),
        _ => Flaw::Between,
    }
}

// Codes 14 to 18.
fn typed_emission_flaw(s: Emission, code: u8) -> Flaw
    requires { 14 ≤ code }
    ensures { result ≡ get_or (emission_flaws s) (code - 14) flaw.Between }
{
    match code {
        14 => emission_flaw(&s.designation),
        15 => range_flaw(fits_tenths(Format::Power, s.power)),
        16 => byte_flaw(is_basis(s.basis)),
        17 => range_flaw(fits_tenths(Format::Azimuth, s.azimuth)),
        18 => range_flaw(fits_tenths(Format::Elevation, s.elevation)),
        _ => Flaw::Between,
    }
}

// Codes 24 to 30, and above them those between fields; a typed unit always has its letter.
fn typed_coordination_flaw(s: Coordination, code: u8) -> Flaw
    requires { 24 ≤ code }
    ensures { result ≡ get_or (coordination_flaws s) (code - 24) flaw.Between }
{
    match code {
        24 => range_flaw(fits_frequency(s.receive)),
        25 => Flaw::None,
        26 => remarks_flaw(&s.remarks),
        27 => byte_flaw(is_status(s.status)),
        28 => range_flaw(fits_day(s.requested)),
        29 => range_flaw(fits_day(s.coordinated)),
        30 => reference_flaw(&s.reference),
        _ => Flaw::Between,
    }
}

// The flaw that a code of a typed station has.
fn flaw_typed(s: Station, code: u8) -> Flaw
    ensures { result ≡ flaw_typed s code }
{
    if code == 0 {
        return Flaw::None;
    }
    if code <= 7 {
        return typed_channel_flaw(s.channel, code);
    }
    if code <= 13 {
        return typed_site_flaw(s.site, code);
    }
    if code <= 18 {
        return typed_emission_flaw(s.emission, code);
    }
    if code <= 23 {
        return typed_antenna_flaw(s.antenna, code);
    }
    typed_coordination_flaw(s.coordination, code)
}

// What is wrong with a typed station: its first broken code, 0 where none is, and the flaw that comes with it.
pub fn explain_typed(s: Station) -> TypedExplained
    ensures { TypedStationExplained s result }
{
    let code = typed_code(s);
    let flaw = flaw_typed(s, code);
    TypedExplained { code, flaw }
}
