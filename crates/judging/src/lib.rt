// The code of a station's record, read in place: the first broken rule, 1 to 30 and then 31 to 39.
#![tactic(auto)]

ghost use Rattle.std.specs.Prelude.{◌≡◌, length};
ghost use Rattle.basics.specs.Rules.{All, first_broken};
ghost use Rattle.station.specs.Places.{fields_of};
ghost use Rattle.station.specs.Groups.{first_between};
ghost use Rattle.station.specs.Codes.{value_of, station_code};
ghost use Rattle.station.specs.Rules.{field_rules};
ghost use Rattle.judging.specs.Promises.{StationChecked};

use asked_fields::{blank_where, filled_where};
use basics::Refusal;
use basics::outcomes::judged;
use basics::rules::first_broken;
use between::never_both;
use columns::texts::is_blank_stepwise;
use distances::read_radius;
use field_judging::field_code;
use last_judging::last_between;

// Rules 31 to 34, where 1 to 30 hold.
fn first_between(rec: &[u8]) -> u8
    requires { (length rec.now ≡ 219) × All (field_rules (fields_of rec.now)) }
    ensures { result ≡ first_broken 31 (first_between (value_of rec.now)) }
{
    let silent = is_blank_stepwise(&rec[0..11]);
    let mobile = rec[13] == b'M';
    let radius = read_radius(&rec[66..71]);
    let rules = [
        filled_where(silent, &rec[125..136]),
        blank_where(silent, &rec[84..90]),
        never_both(!mobile, radius.0 != 0),
        blank_where(mobile, &rec[91..96]),
    ];
    first_broken(&rules, 31)
}

// The first broken rule of a record, 0 where none is.
pub fn station_code(rec: &[u8]) -> u8
    requires { length rec.now ≡ 219 }
    ensures { result ≡ station_code rec.now }
{
    let field = field_code(rec);
    if field != 0 {
        return field;
    }
    let first = first_between(rec);
    if first != 0 {
        return first;
    }
    last_between(rec)
}

// Whether a record of any length can be read: 6, 9 with its code, or done.
pub fn check_station(rec: &[u8]) -> Result<(), Refusal>
    ensures { StationChecked rec.now result }
{
    if rec.len() != 219 {
        return Err(Refusal::RecordLength);
    }
    judged(station_code(rec))
}
