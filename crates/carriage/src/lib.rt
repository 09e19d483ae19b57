// The station of a mobile repeater, named by its carriage: one station of defaults with a vehicle number's name and values of its own.
#![tactic(auto)]

ghost use Rattle.std.specs.Prelude.{◌≡◌, length};
ghost use Rattle.vehicles.specs.Digits.{number_digits};
ghost use Rattle.carriage.specs.Building.{carriage_of};

use basics::Refusal;
use formats::Tenths;
use frequencies::Frequency;
use station::Station;
use station_groups::{Channel, Coordination, Emission, Site};
use vehicle_names::name_of;

// How building ended, and the station: the carriage's, or on a refusal the empty one.
#[derive(Clone, Copy)]
pub struct Built {
    pub outcome: Result<(), Refusal>,
    pub station: Station,
}

// The defaults with a carriage's name, and with its own frequency, power and reference.
pub fn carriage_of(
    number: &[u8],
    transmit: Option<Frequency>,
    power: Tenths,
    reference: [u8; 15],
    defaults: Station,
) -> Station
    requires { length number.now ≡ number_digits }
    ensures { result ≡ carriage_of number.now transmit power reference defaults }
{
    let name = name_of(number);
    let mut built = defaults;
    let usual_channel = defaults.channel;
    let channel = Channel {
        transmit,
        ..usual_channel
    };
    built.channel = channel;
    let usual_site = defaults.site;
    let site = Site { name, ..usual_site };
    built.site = site;
    let usual_emission = defaults.emission;
    let emission = Emission {
        power,
        ..usual_emission
    };
    built.emission = emission;
    let usual_coordination = defaults.coordination;
    let coordination = Coordination {
        reference,
        ..usual_coordination
    };
    built.coordination = coordination;
    built
}
