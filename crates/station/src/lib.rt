// A station as typed values, in five groups of fields that follow one another in the record.
#![tactic(auto)]

use station_groups::{Antenna, Channel, Coordination, Emission, Site};

pub mod setting;
pub mod typed;

// One station of a list.
#[derive(Clone, Copy)]
pub struct Station {
    pub channel: Channel,
    pub site: Site,
    pub emission: Emission,
    pub antenna: Antenna,
    pub coordination: Coordination,
}
