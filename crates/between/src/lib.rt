// The rules between fields, each of the groups of a typed station that it binds, and what they ask of single values.
#![tactic(auto)]

ghost use Rattle.std.specs.Prelude.{◌≡◌, not, eqb};
ghost use Rattle.columns.specs.Sets.{is};
ghost use Rattle.columns.specs.Texts.{bytes, head, trimmed, same, ends_in};
ghost use Rattle.distances.specs.Distances.{has_height};
ghost use Rattle.frequencies.specs.Frequencies.{has_frequency};
ghost use Rattle.formats.specs.Tenths.{has_tenths};
ghost use Rattle.station_groups.specs.Asked.{never, round_antenna};

use columns::texts::{equal, trimmed_length};
use station_groups::{Antenna, Channel, Coordination, Emission, Site};

// The two never stand together.
pub fn never_both(x: bool, y: bool) -> bool
    ensures { result ≡ never x y }
{
    if x { !y } else { true }
}

// 4A, trailing spaces off, ends in _R.
pub fn is_repeater_name(s: &[u8]) -> bool
    ensures { result ≡ ends_in "_R" (trimmed s.now) }
{
    let n = trimmed_length(s);
    if n < 2 {
        return false;
    }
    let from = n - 2;
    equal(b"_R", &s[from..n])
}

// The antenna type of no direction.
pub fn is_round(s: &[u8]) -> bool
    ensures { result ≡ round_antenna s.now }
{
    equal(b"000ND00", s)
}

// 6A begins with M.
fn is_mobile(s: Channel) -> bool
    ensures { result ≡ is "M" (head s.class) }
{
    s.class[0] == b'M'
}

// Rule 31: 1A or 1Y is filled.
pub fn is_heard_or_sent(channel: Channel, coordination: Coordination) -> bool
    ensures { result ≡ never (not (has_frequency channel.transmit)) (not (has_frequency coordination.receive)) }
{
    never_both(channel.transmit.is_none(), coordination.receive.is_none())
}

// Rule 32: where 1A is blank, 8B1 is.
pub fn is_powered_to_send(channel: Channel, emission: Emission) -> bool
    ensures { result ≡ never (not (has_frequency channel.transmit)) (has_tenths emission.power) }
{
    never_both(channel.transmit.is_none(), emission.power.is_some())
}

// Rule 33: where 6A does not begin with M, 4D is 0.
pub fn is_fixed_at_a_point(channel: Channel, site: Site) -> bool
    ensures { result ≡ never (not (is "M" (head channel.class))) (not (eqb site.radius.0 0)) }
{
    never_both(!is_mobile(channel), site.radius.0 != 0)
}

// Rule 34: where 6A begins with M, 9A is blank.
pub fn is_mobile_undirected(channel: Channel, emission: Emission) -> bool
    ensures { result ≡ never (is "M" (head channel.class)) (has_tenths emission.azimuth) }
{
    never_both(is_mobile(channel), emission.azimuth.is_some())
}

// Rule 35: where 9A is blank, 9XH is of no direction.
pub fn is_round_across(emission: Emission, antenna: Antenna) -> bool
    ensures { result ≡ never (not (has_tenths emission.azimuth)) (not (round_antenna antenna.horizontal)) }
{
    never_both(emission.azimuth.is_none(), !is_round(&antenna.horizontal))
}

// Rule 36: where 9B is blank, 9XV is of no direction.
pub fn is_round_upright(emission: Emission, antenna: Antenna) -> bool
    ensures { result ≡ never (not (has_tenths emission.elevation)) (not (round_antenna antenna.vertical)) }
{
    never_both(emission.elevation.is_none(), !is_round(&antenna.vertical))
}

// Rule 37: where 6A begins with M, 4Z is blank.
pub fn is_mobile_at_no_height(channel: Channel, site: Site) -> bool
    ensures { result ≡ never (is "M" (head channel.class)) (has_height site.height) }
{
    never_both(is_mobile(channel), site.height.is_some())
}

// Rule 38: where 1Y is filled, 9G is.
pub fn is_heard_with_gain(coordination: Coordination, antenna: Antenna) -> bool
    ensures { result ≡ never (has_frequency coordination.receive) (not (has_tenths antenna.gain)) }
{
    never_both(coordination.receive.is_some(), antenna.gain.is_none())
}

// Rule 39: where 6A is FL, 4A ends in _R.
pub fn is_repeater_by_name(channel: Channel, site: Site) -> bool
    ensures { result ≡ never (same (bytes "FL") channel.class) (not (ends_in "_R" (trimmed site.name))) }
{
    never_both(equal(b"FL", &channel.class), !is_repeater_name(&site.name))
}
