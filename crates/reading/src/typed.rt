// A station read from its record.
ghost use Rattle.std.specs.Prelude.{◌≡◌, length};
ghost use Rattle.basics.specs.Rules.{All};
ghost use Rattle.station.specs.Places.{fields_of};
ghost use Rattle.station.specs.Rules.{field_rules};
ghost use Rattle.station.specs.Codes.{value_of};
ghost use Rattle.reading.specs.Promises.{StationRead};

use basics::Refusal;
use empties::empty_station;
use group_reading::{antenna_in, channel_in, coordination_in, emission_in, site_in};
use judging::check_station;
use station::Station;

// How reading ended, and the station: the empty one on a refusal.
#[derive(Clone, Copy)]
pub struct ReadStation {
    pub outcome: Result<(), Refusal>,
    pub station: Station,
}

// The station that a record says, where rules 1 to 30 hold.
fn station_in(rec: &[u8]) -> Station
    requires { (length rec.now ≡ 219) × All (field_rules (fields_of rec.now)) }
    ensures { result ≡ value_of rec.now }
{
    Station {
        channel: channel_in(rec),
        site: site_in(rec),
        emission: emission_in(rec),
        antenna: antenna_in(rec),
        coordination: coordination_in(rec),
    }
}

// Reads a station's record; it is refused where it has not 219 bytes, or breaks a rule.
pub fn read_station(rec: &[u8]) -> ReadStation
    ensures { StationRead rec.now result }
{
    let outcome = check_station(rec);
    if outcome.is_ok() {
        return ReadStation {
            outcome,
            station: station_in(rec),
        };
    }
    ReadStation {
        outcome,
        station: empty_station(),
    }
}
