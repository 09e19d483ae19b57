// Stations, and their records, as lines of a semicolon list, for owners who keep them in office software: see specs/.
#![tactic(auto)]

use basics::Refusal;
use station::Station;

// How reading a line ends, and the station; on a refusal the empty one.
#[derive(Clone, Copy)]
pub struct ReadLine {
    pub outcome: Result<(), Refusal>,
    pub station: Station,
}
