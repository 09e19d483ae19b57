// What is wrong with a typed station's channel: the flaw of the one value that a code names.
#![tactic(auto)]

ghost use Rattle.std.specs.Prelude.{◌≡◌, ◌-◌, ◌≤◌, get_or};
ghost use Rattle.flaws.specs.declared.Flaw.TheVariants as flaw;
ghost use Rattle.typed_channel_flaws.specs.Groups.{channel_flaws};

use flaws::Flaw;
use frequencies::fits_frequency;
use number_flaws::range_flaw;
use station_groups::Channel;
use symbol_flaws::{byte_flaw, class_flaw, service_flaw, users_flaw};
use symbols::{is_carrier, is_category};

// Codes 1 to 7; a typed unit always has its letter.
pub fn typed_channel_flaw(s: Channel, code: u8) -> Flaw
    requires { 1 ≤ code }
    ensures { result ≡ get_or (channel_flaws s) (code - 1) flaw.Between }
{
    match code {
        1 => range_flaw(fits_frequency(s.transmit)),
        2 => Flaw::None,
        3 => byte_flaw(is_category(s.category)),
        4 => class_flaw(&s.class),
        5 => service_flaw(&s.service),
        6 => users_flaw(&s.users),
        7 => byte_flaw(is_carrier(s.carrier)),
        _ => Flaw::Between,
    }
}
