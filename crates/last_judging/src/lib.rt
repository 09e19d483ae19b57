// Rules 35 to 39 of a station's record, read in place where 1 to 30 hold: those of antennas, height, gain and name.
#![tactic(auto)]

ghost use Rattle.std.specs.Prelude.{◌≡◌, length};
ghost use Rattle.basics.specs.Rules.{All, first_broken};
ghost use Rattle.station.specs.Places.{fields_of};
ghost use Rattle.station.specs.Groups.{last_between};
ghost use Rattle.station.specs.Codes.{value_of};
ghost use Rattle.station.specs.Rules.{field_rules};

use asked_fields::{blank_where, filled_where, is_filled, round_where};
use basics::rules::first_broken;
use between::{is_repeater_name, never_both};
use columns::texts::{equal, is_blank_stepwise};

// Rules 35 to 39, where 1 to 30 hold.
pub fn last_between(rec: &[u8]) -> u8
    requires { (length rec.now ≡ 219) × All (field_rules (fields_of rec.now)) }
    ensures { result ≡ first_broken 35 (last_between (value_of rec.now)) }
{
    let mobile = rec[13] == b'M';
    let repeater = equal(b"FL", &rec[13..15]);
    let rules = [
        round_where(is_blank_stepwise(&rec[91..96]), &rec[111..118]),
        round_where(is_blank_stepwise(&rec[96..101]), &rec[118..125]),
        blank_where(mobile, &rec[71..75]),
        filled_where(is_filled(&rec[125..136]), &rec[103..107]),
        never_both(repeater, !is_repeater_name(&rec[28..48])),
    ];
    first_broken(&rules, 35)
}
