// What the stations of a file say of their operators: how many there are of each, and the lowest and the highest transmit frequency, in one pass.
#![tactic(auto)]

ghost use Rattle.std.specs.Prelude.{◌≡◌, ◌+◌, ◌≤◌, ◌<◌};
ghost use Rattle.files.specs.Files.{HasRecord, most_stations};
ghost use Rattle.operator_counts.specs.Counts.{heard_at, added_to, tally_of, tabled, operators};

use hundredths::{anew, higher, hundredths_of, lower};
use numerals::number_of;
use stations::{code, operator, transmit};

// What is heard of a station: its operator's number and its transmit frequency.
#[derive(Clone, Copy)]
pub struct Heard {
    pub operator: usize,
    pub transmit: Option<u64>,
}

// What is counted of an operator: its stations, those with a transmit frequency, and the lowest and the highest of these.
#[derive(Clone, Copy)]
pub struct Tally {
    pub stations: u16,
    pub transmitting: u16,
    pub lowest: Option<u64>,
    pub highest: Option<u64>,
}

// How many operators there can be: each is two digits.
pub const OPERATORS: usize = 100;

// What is heard of station k: nothing where it breaks a rule.
fn heard_of(file: &[u8], k: usize) -> Option<Heard>
    requires { HasRecord file.now k }
    ensures { result ≡ heard_at file.now k }
{
    if code(file, k) != 0 {
        return None;
    }
    let c = number_of(operator(file, k)) as usize;
    let frequency = transmit(file, k);
    Some(Heard {
        operator: c,
        transmit: hundredths_of(frequency),
    })
}

// A tally and one station more, with its transmit frequency.
fn added(t: Tally, a: Option<u64>) -> Tally
    requires { (t.stations < most_stations) × (t.transmitting < most_stations) }
    ensures { result ≡ added_to t a }
{
    let lowest = t.lowest;
    let highest = t.highest;
    match a {
        None => Tally {
            stations: t.stations + 1,
            transmitting: t.transmitting,
            lowest: anew(lowest),
            highest: anew(highest),
        },
        Some(v) => {
            let low = lower(v, lowest);
            let high = higher(v, highest);
            Tally {
                stations: t.stations + 1,
                transmitting: t.transmitting + 1,
                lowest: low,
                highest: high,
            }
        }
    }
}

// The tallies of all operators: one pass over the first n stations.
pub fn tallies(file: &[u8], n: usize) -> [Tally; OPERATORS]
    requires { (n ≤ most_stations) × HasRecord file.now n }
    ensures { result ≡ tabled (tally_of (heard_at file.now) n) operators }
{
    let none = Tally {
        stations: 0,
        transmitting: 0,
        lowest: None,
        highest: None,
    };
    let mut counts = [none; OPERATORS];
    for i in 0..n {
        if let Some(heard) = heard_of(file, i + 1) {
            counts[heard.operator] = added(counts[heard.operator], heard.transmit);
        }
    }
    counts
}
