// Each group of a station, read from its columns of the record.
#![tactic(auto)]

ghost use Rattle.std.specs.Prelude.{◌≡◌, length};
ghost use Rattle.basics.specs.Rules.{All};
ghost use Rattle.station.specs.Places.{fields_of};
ghost use Rattle.station.specs.Rules.{field_rules};
ghost use Rattle.station.specs.Codes.{value_of};

use days::dates::day_in;
use distances::{read_ground, read_height, read_radius};
use formats::Format;
use frequencies::read_frequency;
use keeping::text;
use positions::position_in;
use station_groups::{Antenna, Channel, Coordination, Emission, Site};
use tenths::read_tenths;

// What is sent, and for whom, as the record says it.
pub fn channel_in(rec: &[u8]) -> Channel
    requires { length rec.now ≡ 219 }
    ensures { result ≡ (value_of rec.now).channel }
{
    let transmit = read_frequency(&rec[0..11], &rec[11..12]);
    let category = rec[12];
    let class = text(&rec[13..15]);
    let service = text(&rec[15..17]);
    let users = text(&rec[17..19]);
    let carrier = rec[19];
    Channel {
        transmit,
        category,
        class,
        service,
        users,
        carrier,
    }
}

// Where, and since when, as the record says it; 4C counts where its rule holds.
pub fn site_in(rec: &[u8]) -> Site
    requires { (length rec.now ≡ 219) × All (field_rules (fields_of rec.now)) }
    ensures { result ≡ (value_of rec.now).site }
{
    let started = day_in(&rec[20..28]);
    let name = text(&rec[28..48]);
    let country = text(&rec[48..51]);
    let position = position_in(&rec[51..66]);
    let radius = read_radius(&rec[66..71]);
    let height = read_height(&rec[71..75]);
    Site {
        started,
        name,
        country,
        position,
        radius,
        height,
    }
}

// How it is sent, as the record says it.
pub fn emission_in(rec: &[u8]) -> Emission
    requires { length rec.now ≡ 219 }
    ensures { result ≡ (value_of rec.now).emission }
{
    let designation = text(&rec[75..84]);
    let power = read_tenths(Format::Power, &rec[84..90]);
    let basis = rec[90];
    let azimuth = read_tenths(Format::Azimuth, &rec[91..96]);
    let elevation = read_tenths(Format::Elevation, &rec[96..101]);
    Emission {
        designation,
        power,
        basis,
        azimuth,
        elevation,
    }
}

// From which antenna, as the record says it.
pub fn antenna_in(rec: &[u8]) -> Antenna
    requires { length rec.now ≡ 219 }
    ensures { result ≡ (value_of rec.now).antenna }
{
    let polarisation = text(&rec[101..103]);
    let gain = read_tenths(Format::Gain, &rec[103..107]);
    let ground = read_ground(&rec[107..111]);
    let horizontal = text(&rec[111..118]);
    let vertical = text(&rec[118..125]);
    Antenna {
        polarisation,
        gain,
        ground,
        horizontal,
        vertical,
    }
}

// What is received, and how it was filed, as the record says it.
pub fn coordination_in(rec: &[u8]) -> Coordination
    requires { length rec.now ≡ 219 }
    ensures { result ≡ (value_of rec.now).coordination }
{
    let receive = read_frequency(&rec[125..136], &rec[136..137]);
    let remarks = text(&rec[137..187]);
    let status = rec[187];
    let requested = day_in(&rec[188..196]);
    let coordinated = day_in(&rec[196..204]);
    let reference = text(&rec[204..219]);
    Coordination {
        receive,
        remarks,
        status,
        requested,
        coordinated,
        reference,
    }
}
