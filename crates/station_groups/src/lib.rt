// The five groups of a typed station, in which it is judged, read and written.
#![tactic(auto)]

use days::dates::Date;
use distances::{Kilometres, Metres};
use formats::Tenths;
use frequencies::Frequency;
use positions::Position;

// What is sent, and for whom: 1A with its unit, 1Z, 6A, 6B, 6Z and 10Z.
#[derive(Clone, Copy)]
pub struct Channel {
    pub transmit: Option<Frequency>,
    pub category: u8,
    pub class: [u8; 2],
    pub service: [u8; 2],
    pub users: [u8; 2],
    pub carrier: u8,
}

// Where, and since when: 2C, 4A, 4B, 4C, 4D and 4Z.
#[derive(Clone, Copy)]
pub struct Site {
    pub started: Option<Date>,
    pub name: [u8; 20],
    pub country: [u8; 3],
    pub position: Position,
    pub radius: Kilometres,
    pub height: Option<Metres>,
}

// How it is sent: 7A, 8B1, 8B2, 9A and 9B.
#[derive(Clone, Copy)]
pub struct Emission {
    pub designation: [u8; 9],
    pub power: Tenths,
    pub basis: u8,
    pub azimuth: Tenths,
    pub elevation: Tenths,
}

// From which antenna: 9D, 9G, 9Y, 9XH and 9XV.
#[derive(Clone, Copy)]
pub struct Antenna {
    pub polarisation: [u8; 2],
    pub gain: Tenths,
    pub ground: Metres,
    pub horizontal: [u8; 7],
    pub vertical: [u8; 7],
}

// What is received, and how it was filed: 1Y with its unit, 13Z, 13Y, 2W, 2Z and 13X.
#[derive(Clone, Copy)]
pub struct Coordination {
    pub receive: Option<Frequency>,
    pub remarks: [u8; 50],
    pub status: u8,
    pub requested: Option<Date>,
    pub coordinated: Option<Date>,
    pub reference: [u8; 15],
}
