// A station's emission and antenna, columns 76 to 125, each field written straight into its own columns.
#![tactic(auto)]

ghost use Rattle.std.specs.Prelude.{◌≡◌, length, drop};
ghost use Rattle.basics.specs.Fields.{joined};
ghost use Rattle.station_groups.specs.Groups.{emission_pieces, antenna_pieces};

use columns::texts::{write_byte, write_text};
use distances::put_ground;
use formats::Format;
use station_groups::{Antenna, Emission};
use tenths::put_tenths;

// 9A and 9B, columns 92 to 101: where it is sent to.
fn put_direction(g: Emission, s: &mut [u8])
    requires { length s.old ≡ 10 }
    ensures { s.new ≡ joined (drop 3 (emission_pieces g)) }
{
    put_tenths(Format::Azimuth, &mut s[0..5], g.azimuth);
    put_tenths(Format::Elevation, &mut s[5..10], g.elevation);
}

// 7A, 8B1, 8B2 and the direction, columns 76 to 101.
pub fn put_emission(g: Emission, s: &mut [u8])
    requires { length s.old ≡ 26 }
    ensures { s.new ≡ joined (emission_pieces g) }
{
    write_text(&mut s[0..9], &g.designation);
    put_tenths(Format::Power, &mut s[9..15], g.power);
    write_byte(&mut s[15..16], g.basis);
    put_direction(g, &mut s[16..26]);
}

// 9XH and 9XV, columns 112 to 125: the types of the antenna.
fn put_types(g: Antenna, s: &mut [u8])
    requires { length s.old ≡ 14 }
    ensures { s.new ≡ joined (drop 3 (antenna_pieces g)) }
{
    write_text(&mut s[0..7], &g.horizontal);
    write_text(&mut s[7..14], &g.vertical);
}

// 9D, 9G, 9Y and the types, columns 102 to 125.
pub fn put_antenna(g: Antenna, s: &mut [u8])
    requires { length s.old ≡ 24 }
    ensures { s.new ≡ joined (antenna_pieces g) }
{
    write_text(&mut s[0..2], &g.polarisation);
    put_tenths(Format::Gain, &mut s[2..6], g.gain);
    put_ground(&mut s[6..10], g.ground);
    put_types(g, &mut s[10..24]);
}
