// What an amount that keeps its rule says with its unit: the rule is not asked again.
#![tactic(auto)]

ghost use Rattle.std.specs.Prelude.{◌≡◌, true, length};
ghost use Rattle.frequencies.specs.Frequencies.{amount_good, frequency_of};
ghost use Rattle.frequency_values.specs.Full.{ReachesThrough};

use columns::texts::byte;
use frequencies::{Frequency, read_frequency, unit_of};
use numerals::number_of;

// Whether a byte other than a space stands first and last, and the point behind five.
fn reaches_through(p: &[u8]) -> bool
    requires { length p.now ≡ 11 }
    ensures { result ≡ true → ReachesThrough p.now }
{
    if p[5] != b'.' {
        return false;
    }
    if p[0] == b' ' {
        return false;
    }
    p[10] != b' '
}

// What an amount that keeps its rule and its unit say. One that reaches through its columns has a digit in each but the point's.
pub fn frequency_in(p: &[u8], q: &[u8]) -> Option<Frequency>
    requires { (length p.now ≡ 11) × (amount_good p.now ≡ true) }
    ensures { result ≡ frequency_of p.now q.now }
{
    if !reaches_through(p) {
        return read_frequency(p, q);
    }
    let whole = number_of(&p[0..5]);
    let fraction = number_of(&p[6..11]);
    Some(Frequency {
        amount: whole * 100000 + fraction,
        unit: unit_of(byte(q, 0)),
    })
}
