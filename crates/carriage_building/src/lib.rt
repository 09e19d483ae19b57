// Building the station of a carriage, from a vehicle number and one station of defaults: what is refused, and what is handed out.
#![tactic(auto)]

ghost use Rattle.std.specs.Prelude.{◌≡◌};
ghost use Rattle.station.specs.Values.{empty_station};
ghost use Rattle.carriage.specs.Building.{are_defaults};
ghost use Rattle.carriage.specs.Promises.{CarriageBuilt};

use basics::Refusal;
use carriage::{Built, carriage_of};
use columns::texts::equal;
use empties::empty_station;
use formats::Tenths;
use frequencies::Frequency;
use station::Station;
use station::typed::typed_code;
use vehicles::digits::check_number;

// A station that breaks no rule, with the class ML.
fn are_defaults(s: Station) -> bool
    ensures { result ≡ are_defaults s }
{
    if typed_code(s) != 0 {
        return false;
    }
    let class = s.channel.class;
    equal(b"ML", &class)
}

// A refusal, with the empty station.
fn refused(outcome: Result<(), Refusal>) -> Built
    ensures { (result.outcome ≡ outcome) × (result.station ≡ empty_station) }
{
    Built {
        outcome,
        station: empty_station(),
    }
}

// Builds the station of a carriage: 14 and 15 by its number, 16 by the defaults, then 9 by the station that they make.
pub fn build(
    number: &[u8],
    transmit: Option<Frequency>,
    power: Tenths,
    reference: [u8; 15],
    defaults: Station,
) -> Built
    ensures { CarriageBuilt number.now transmit power reference defaults result }
{
    let checked = check_number(number);
    if checked.is_err() {
        return refused(checked);
    }
    if !are_defaults(defaults) {
        return refused(Err(Refusal::NotMobileDefaults));
    }
    let station = carriage_of(number, transmit, power, reference, defaults);
    let code = typed_code(station);
    if code != 0 {
        return refused(Err(Refusal::RuleBroken(code)));
    }
    Built {
        outcome: Ok(()),
        station,
    }
}
