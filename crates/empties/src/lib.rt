// The header and the station that a refused reading hands back.
#![tactic(auto)]

ghost use Rattle.empties.specs.Promises.{HeaderEmpty, StationEmpty};

use distances::{Kilometres, Metres};
use header::Header;
use positions::Position;
use station::Station;
use station_groups::{Antenna, Channel, Coordination, Emission, Site};

// The empty header: numbers 0, date and file number blank, text all spaces.
pub fn empty_header() -> Header
    ensures { HeaderEmpty result }
{
    Header {
        number: 0,
        content: [b' '; 80],
        letter: b' ',
        origin: [b' '; 3],
        mail: [b' '; 40],
        telephone: [b' '; 20],
        person: [b' '; 20],
        count: 0,
        date: None,
        destination: [b' '; 3],
        serial: None,
        version: [b' '; 3],
        reserve: [b' '; 7],
    }
}

// The empty station: numbers 0, choices the first listed, dates and optional values blank, text all spaces.
pub fn empty_station() -> Station
    ensures { StationEmpty result }
{
    Station {
        channel: Channel {
            transmit: None,
            category: b'1',
            class: [b'F', b'B'],
            service: [b'C', b'O'],
            users: [b' '; 2],
            carrier: b'0',
        },
        site: Site {
            started: None,
            name: [b' '; 20],
            country: [b' '; 3],
            position: Position { east: 0, north: 0 },
            radius: Kilometres(0),
            height: None,
        },
        emission: Emission {
            designation: [b' '; 9],
            power: None,
            basis: b'E',
            azimuth: None,
            elevation: None,
        },
        antenna: Antenna {
            polarisation: [b'H', b' '],
            gain: None,
            ground: Metres(0),
            horizontal: [b' '; 7],
            vertical: [b' '; 7],
        },
        coordination: Coordination {
            receive: None,
            remarks: [b' '; 50],
            status: b'F',
            requested: None,
            coordinated: None,
            reference: [b' '; 15],
        },
    }
}
