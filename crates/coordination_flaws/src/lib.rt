// What is wrong with the last fields of a station's record: the flaw of the one field that a code from 24 on names.
#![tactic(auto)]

ghost use Rattle.std.specs.Prelude.{◌≡◌, ◌≤◌, length};
ghost use Rattle.coordination_flaws.specs.Flaws.{record_flaw};

use flaws::Flaw;
use number_flaws::{amount_flaw, day_flaw, unit_flaw};
use symbol_flaws::{byte_flaw, reference_flaw, remarks_flaw};
use symbols::is_status;

// Codes 24 to 30, and above them those between fields.
pub fn coordination_flaw(rec: &[u8], code: u8) -> Flaw
    requires { (length rec.now ≡ 219) × (24 ≤ code) }
    ensures { result ≡ record_flaw rec.now code }
{
    match code {
        24 => amount_flaw(&rec[125..136]),
        25 => unit_flaw(&rec[125..136], &rec[136..137]),
        26 => remarks_flaw(&rec[137..187]),
        27 => byte_flaw(is_status(rec[187])),
        28 => day_flaw(&rec[188..196]),
        29 => day_flaw(&rec[196..204]),
        30 => reference_flaw(&rec[204..219]),
        _ => Flaw::Between,
    }
}
