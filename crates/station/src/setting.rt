// Power, 9A, 9B, 4Z and 9Y set on a typed station: the changed station is judged, and given back where it breaks no rule.
ghost use Rattle.station.specs.Promises.{StationSet, PowerSet, AzimuthSet, ElevationSet, HeightSet, GroundSet};

use crate::Station;
use crate::typed::typed_code;
use basics::Refusal;
use basics::outcomes::judged;
use distances::Metres;
use formats::Tenths;
use station_groups::{Antenna, Emission, Site};

// How setting ended, and the station: the changed one, or on a refusal the one that was given.
#[derive(Clone, Copy)]
pub struct Settled {
    pub outcome: Result<(), Refusal>,
    pub station: Station,
}

// The changed station where it breaks no rule, else the given one and the broken rule's code.
fn settle(given: Station, changed: Station) -> Settled
    ensures { StationSet given changed result }
{
    let outcome = judged(typed_code(changed));
    if outcome.is_ok() {
        return Settled {
            outcome,
            station: changed,
        };
    }
    Settled {
        outcome,
        station: given,
    }
}

impl Station {
    // Sets 8B1.
    pub fn set_power(self, v: Tenths) -> Settled
        ensures { PowerSet self v result }
    {
        let mut changed = self;
        let old = self.emission;
        let emission = Emission { power: v, ..old };
        changed.emission = emission;
        settle(self, changed)
    }

    // Sets 9A.
    pub fn set_azimuth(self, v: Tenths) -> Settled
        ensures { AzimuthSet self v result }
    {
        let mut changed = self;
        let old = self.emission;
        let emission = Emission { azimuth: v, ..old };
        changed.emission = emission;
        settle(self, changed)
    }

    // Sets 9B.
    pub fn set_elevation(self, v: Tenths) -> Settled
        ensures { ElevationSet self v result }
    {
        let mut changed = self;
        let old = self.emission;
        let emission = Emission {
            elevation: v,
            ..old
        };
        changed.emission = emission;
        settle(self, changed)
    }

    // Sets 4Z.
    pub fn set_height(self, v: Option<Metres>) -> Settled
        ensures { HeightSet self v result }
    {
        let mut changed = self;
        let old = self.site;
        let site = Site { height: v, ..old };
        changed.site = site;
        settle(self, changed)
    }

    // Sets 9Y.
    pub fn set_ground(self, v: Metres) -> Settled
        ensures { GroundSet self v result }
    {
        let mut changed = self;
        let old = self.antenna;
        let antenna = Antenna { ground: v, ..old };
        changed.antenna = antenna;
        settle(self, changed)
    }
}
