// Rules 24 to 30 of a station's record, read in place: what is received, and how it was filed.
#![tactic(auto)]

ghost use Rattle.std.specs.Prelude.{◌≡◌, length};
ghost use Rattle.basics.specs.Rules.{first_broken};
ghost use Rattle.station.specs.Places.{fields_of};
ghost use Rattle.station_groups.specs.Groups.{coordination_fields};

use days::dates::is_day;
use frequencies::{is_amount, is_unit};
use remarks::is_remarks;
use symbols::{is_reference, is_status};

// Rules 24 to 30.
pub fn coordination_code(rec: &[u8]) -> u8
    requires { length rec.now ≡ 219 }
    ensures { result ≡ first_broken 24 (coordination_fields (fields_of rec.now)) }
{
    if !is_amount(&rec[125..136]) {
        return 24;
    }
    if !is_unit(&rec[125..136], &rec[136..137]) {
        return 25;
    }
    if !is_remarks(&rec[137..187]) {
        return 26;
    }
    if !is_status(rec[187]) {
        return 27;
    }
    if !is_day(&rec[188..196]) {
        return 28;
    }
    if !is_day(&rec[196..204]) {
        return 29;
    }
    if !is_reference(&rec[204..219]) {
        return 30;
    }
    0
}
