// A field of a record, filled, blank or of no direction, asked where another field says so.
#![tactic(auto)]

ghost use Rattle.std.specs.Prelude.{◌≡◌, not};
ghost use Rattle.columns.specs.Texts.{blank};
ghost use Rattle.station_groups.specs.Asked.{round_antenna, never};

use between::is_round;
use columns::texts::is_blank_stepwise;

// Not all spaces.
pub fn is_filled(s: &[u8]) -> bool
    ensures { result ≡ not (blank s.now) }
{
    !is_blank_stepwise(s)
}

// A field is filled where x holds; else it is not looked at.
pub fn filled_where(x: bool, s: &[u8]) -> bool
    ensures { result ≡ never x (blank s.now) }
{
    if x { is_filled(s) } else { true }
}

// A field is blank where x holds; else it is not looked at.
pub fn blank_where(x: bool, s: &[u8]) -> bool
    ensures { result ≡ never x (not (blank s.now)) }
{
    if x { is_blank_stepwise(s) } else { true }
}

// A type of antenna is the one of no direction where x holds; else it is not looked at.
pub fn round_where(x: bool, s: &[u8]) -> bool
    ensures { result ≡ never x (not (round_antenna s.now)) }
{
    if x { is_round(s) } else { true }
}
