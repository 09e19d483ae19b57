// Rules 1 to 30 of a station's record, read in place: the first that a field breaks.
#![tactic(auto)]

ghost use Rattle.std.specs.Prelude.{◌≡◌, length};
ghost use Rattle.basics.specs.Rules.{first_broken};
ghost use Rattle.station.specs.Places.{fields_of};
ghost use Rattle.station_groups.specs.Groups.{channel_fields, site_fields, emission_fields, antenna_fields};
ghost use Rattle.station.specs.Rules.{field_rules};

use coordination_judging::coordination_code;
use days::dates::is_day;
use distances::{is_height, is_whole_filled};
use emissions::is_emission;
use formats::Format;
use frequencies::{is_amount, is_unit};
use position_judging::is_position;
use symbols::{
    is_antenna, is_basis, is_carrier, is_category, is_class, is_country, is_polarisation,
    is_service, is_station_name, is_users,
};
use tenths::is_tenths;

// Rules 1 to 7.
fn channel_code(rec: &[u8]) -> u8
    requires { length rec.now ≡ 219 }
    ensures { result ≡ first_broken 1 (channel_fields (fields_of rec.now)) }
{
    if !is_amount(&rec[0..11]) {
        return 1;
    }
    if !is_unit(&rec[0..11], &rec[11..12]) {
        return 2;
    }
    if !is_category(rec[12]) {
        return 3;
    }
    if !is_class(&rec[13..15]) {
        return 4;
    }
    if !is_service(&rec[15..17]) {
        return 5;
    }
    if !is_users(&rec[17..19]) {
        return 6;
    }
    if !is_carrier(rec[19]) {
        return 7;
    }
    0
}

// Rules 8 to 13.
fn site_code(rec: &[u8]) -> u8
    requires { length rec.now ≡ 219 }
    ensures { result ≡ first_broken 8 (site_fields (fields_of rec.now)) }
{
    if !is_day(&rec[20..28]) {
        return 8;
    }
    if !is_station_name(&rec[28..48]) {
        return 9;
    }
    if !is_country(&rec[48..51]) {
        return 10;
    }
    if !is_position(&rec[51..66]) {
        return 11;
    }
    if !is_whole_filled(&rec[66..71]) {
        return 12;
    }
    if !is_height(&rec[71..75]) {
        return 13;
    }
    0
}

// Rules 14 to 18.
fn emission_code(rec: &[u8]) -> u8
    requires { length rec.now ≡ 219 }
    ensures { result ≡ first_broken 14 (emission_fields (fields_of rec.now)) }
{
    if !is_emission(&rec[75..84]) {
        return 14;
    }
    if !is_tenths(Format::Power, &rec[84..90]) {
        return 15;
    }
    if !is_basis(rec[90]) {
        return 16;
    }
    if !is_tenths(Format::Azimuth, &rec[91..96]) {
        return 17;
    }
    if !is_tenths(Format::Elevation, &rec[96..101]) {
        return 18;
    }
    0
}

// Rules 19 to 23.
fn antenna_code(rec: &[u8]) -> u8
    requires { length rec.now ≡ 219 }
    ensures { result ≡ first_broken 19 (antenna_fields (fields_of rec.now)) }
{
    if !is_polarisation(&rec[101..103]) {
        return 19;
    }
    if !is_tenths(Format::Gain, &rec[103..107]) {
        return 20;
    }
    if !is_whole_filled(&rec[107..111]) {
        return 21;
    }
    if !is_antenna(&rec[111..118]) {
        return 22;
    }
    if !is_antenna(&rec[118..125]) {
        return 23;
    }
    0
}

// Rules 1 to 30, group after group.
pub fn field_code(rec: &[u8]) -> u8
    requires { length rec.now ≡ 219 }
    ensures { result ≡ first_broken 1 (field_rules (fields_of rec.now)) }
{
    let channel = channel_code(rec);
    if channel != 0 {
        return channel;
    }
    let site = site_code(rec);
    if site != 0 {
        return site;
    }
    let emission = emission_code(rec);
    if emission != 0 {
        return emission;
    }
    let antenna = antenna_code(rec);
    if antenna != 0 {
        return antenna;
    }
    coordination_code(rec)
}
