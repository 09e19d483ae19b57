// The code of each group of a typed station: rules 1 to 30, the first that a value breaks.
#![tactic(auto)]

ghost use Rattle.std.specs.Prelude.{◌≡◌};
ghost use Rattle.basics.specs.Rules.{first_broken};
ghost use Rattle.station_groups.specs.Groups.{channel_rules, site_rules, emission_rules, antenna_rules, coordination_rules};

use basics::rules::first_broken;
use days::dates::fits_day;
use distances::{fits_ground, fits_height, fits_radius};
use emissions::is_emission;
use formats::Format;
use frequencies::fits_frequency;
use position_writing::fits_position;
use remarks::is_remarks;
use station_groups::{Antenna, Channel, Coordination, Emission, Site};
use symbols::{
    is_antenna, is_basis, is_carrier, is_category, is_class, is_country, is_polarisation,
    is_reference, is_service, is_station_name, is_status, is_users,
};
use tenths::fits_tenths;

// Rules 1 to 7; a typed unit always has its letter.
pub fn typed_channel_code(s: Channel) -> u8
    ensures { result ≡ first_broken 1 (channel_rules s) }
{
    let rules = [
        fits_frequency(s.transmit),
        true,
        is_category(s.category),
        is_class(&s.class),
        is_service(&s.service),
        is_users(&s.users),
        is_carrier(s.carrier),
    ];
    first_broken(&rules, 1)
}

// Rules 8 to 13.
pub fn typed_site_code(s: Site) -> u8
    ensures { result ≡ first_broken 8 (site_rules s) }
{
    let rules = [
        fits_day(s.started),
        is_station_name(&s.name),
        is_country(&s.country),
        fits_position(s.position),
        fits_radius(s.radius),
        fits_height(s.height),
    ];
    first_broken(&rules, 8)
}

// Rules 14 to 18.
pub fn typed_emission_code(s: Emission) -> u8
    ensures { result ≡ first_broken 14 (emission_rules s) }
{
    let rules = [
        is_emission(&s.designation),
        fits_tenths(Format::Power, s.power),
        is_basis(s.basis),
        fits_tenths(Format::Azimuth, s.azimuth),
        fits_tenths(Format::Elevation, s.elevation),
    ];
    first_broken(&rules, 14)
}

// Rules 19 to 23.
pub fn typed_antenna_code(s: Antenna) -> u8
    ensures { result ≡ first_broken 19 (antenna_rules s) }
{
    let rules = [
        is_polarisation(&s.polarisation),
        fits_tenths(Format::Gain, s.gain),
        fits_ground(s.ground),
        is_antenna(&s.horizontal),
        is_antenna(&s.vertical),
    ];
    first_broken(&rules, 19)
}

// Rules 24 to 30; a typed unit always has its letter.
pub fn typed_coordination_code(s: Coordination) -> u8
    ensures { result ≡ first_broken 24 (coordination_rules s) }
{
    let rules = [
        fits_frequency(s.receive),
        true,
        is_remarks(&s.remarks),
        is_status(s.status),
        fits_day(s.requested),
        fits_day(s.coordinated),
        is_reference(&s.reference),
    ];
    first_broken(&rules, 24)
}
