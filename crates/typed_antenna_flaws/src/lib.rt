// What is wrong with a typed station's antenna: the flaw of the one value that a code names.
#![tactic(auto)]

ghost use Rattle.std.specs.Prelude.{◌≡◌, ◌-◌, ◌≤◌, get_or};
ghost use Rattle.flaws.specs.declared.Flaw.TheVariants as flaw;
ghost use Rattle.typed_antenna_flaws.specs.Groups.{antenna_flaws};

use distances::fits_ground;
use flaws::Flaw;
use formats::Format;
use number_flaws::range_flaw;
use station_groups::Antenna;
use symbol_flaws::{antenna_flaw, polarisation_flaw};
use tenths::fits_tenths;

// Codes 19 to 23.
pub fn typed_antenna_flaw(s: Antenna, code: u8) -> Flaw
    requires { 19 ≤ code }
    ensures { result ≡ get_or (antenna_flaws s) (code - 19) flaw.Between }
{
    match code {
        19 => polarisation_flaw(&s.polarisation),
        20 => range_flaw(fits_tenths(Format::Gain, s.gain)),
        21 => range_flaw(fits_ground(s.ground)),
        22 => antenna_flaw(&s.horizontal),
        23 => antenna_flaw(&s.vertical),
        _ => Flaw::Between,
    }
}
