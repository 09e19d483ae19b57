// What is wrong with a station's record: its first broken code, and the flaw of the one field that the code names.
#![tactic(auto)]

ghost use Rattle.std.specs.Prelude.{◌≡◌, ◌≤◌, length};
ghost use Rattle.coordination_flaws.specs.Flaws.{record_flaw};
ghost use Rattle.station_flaws.specs.Promises.{StationExplained};

use basics::Refusal;
use basics::outcomes::code_with;
use coordination_flaws::coordination_flaw;
use flaws::Flaw;
use formats::Format;
use judging::check_station;
use number_flaws::{
    amount_flaw, day_flaw, height_flaw, position_flaw, tenths_flaw, unit_flaw, whole_flaw,
};
use symbol_flaws::{
    antenna_flaw, byte_flaw, class_flaw, country_flaw, emission_flaw, name_flaw, polarisation_flaw,
    service_flaw, users_flaw,
};
use symbols::{is_basis, is_carrier, is_category};

// How reading a record ends, and the flaw that comes with its code.
#[derive(Clone, Copy)]
pub struct Explained {
    pub outcome: Result<(), Refusal>,
    pub flaw: Flaw,
}

// Codes 19 to 23, and those above.
fn antenna_part_flaw(rec: &[u8], code: u8) -> Flaw
    requires { (length rec.now ≡ 219) × (19 ≤ code) }
    ensures { result ≡ record_flaw rec.now code }
{
    match code {
        19 => polarisation_flaw(&rec[101..103]),
        20 => tenths_flaw(Format::Gain, &rec[103..107]),
        21 => whole_flaw(&rec[107..111]),
        22 => antenna_flaw(&rec[111..118]),
        23 => antenna_flaw(&rec[118..125]),
        _ => coordination_flaw(rec, code),
    }
}

// Codes 14 to 18, and those above.
fn emission_part_flaw(rec: &[u8], code: u8) -> Flaw
    requires { (length rec.now ≡ 219) × (14 ≤ code) }
    ensures { result ≡ record_flaw rec.now code }
{
    match code {
        14 => emission_flaw(&rec[75..84]),
        15 => tenths_flaw(Format::Power, &rec[84..90]),
        16 => byte_flaw(is_basis(rec[90])),
        17 => tenths_flaw(Format::Azimuth, &rec[91..96]),
        18 => tenths_flaw(Format::Elevation, &rec[96..101]),
        _ => antenna_part_flaw(rec, code),
    }
}

// Codes 8 to 13, and those above.
fn site_part_flaw(rec: &[u8], code: u8) -> Flaw
    requires { (length rec.now ≡ 219) × (8 ≤ code) }
    ensures { result ≡ record_flaw rec.now code }
{
    match code {
        8 => day_flaw(&rec[20..28]),
        9 => name_flaw(&rec[28..48]),
        10 => country_flaw(&rec[48..51]),
        11 => position_flaw(&rec[51..66]),
        12 => whole_flaw(&rec[66..71]),
        13 => height_flaw(&rec[71..75]),
        _ => emission_part_flaw(rec, code),
    }
}

// The flaw that a code of a record has.
pub fn record_flaw(rec: &[u8], code: u8) -> Flaw
    requires { length rec.now ≡ 219 }
    ensures { result ≡ record_flaw rec.now code }
{
    match code {
        0 => Flaw::None,
        1 => amount_flaw(&rec[0..11]),
        2 => unit_flaw(&rec[0..11], &rec[11..12]),
        3 => byte_flaw(is_category(rec[12])),
        4 => class_flaw(&rec[13..15]),
        5 => service_flaw(&rec[15..17]),
        6 => users_flaw(&rec[17..19]),
        7 => byte_flaw(is_carrier(rec[19])),
        _ => site_part_flaw(rec, code),
    }
}

// What is wrong with a record of any length: 6, 9 with its code, or done, and the flaw that comes with the code.
pub fn explain_station(rec: &[u8]) -> Explained
    ensures { StationExplained rec.now result }
{
    let outcome = check_station(rec);
    if rec.len() != 219 {
        return Explained {
            outcome,
            flaw: Flaw::None,
        };
    }
    let flaw = record_flaw(rec, code_with(outcome));
    Explained { outcome, flaw }
}
