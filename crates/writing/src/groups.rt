// The groups of a station's fields before and behind its emission, each field written straight into its own columns.
ghost use Rattle.std.specs.Prelude.{◌≡◌, length, drop};
ghost use Rattle.basics.specs.Fields.{joined};
ghost use Rattle.station_groups.specs.Groups.{channel_pieces, site_pieces, coordination_pieces};

use columns::texts::{write_byte, write_text};
use day_writing::put_day;
use distances::{put_height, put_radius};
use frequencies::{put_amount, put_unit};
use position_writing::put_position;
use station_groups::{Channel, Coordination, Site};

// 6A, 6B, 6Z and 10Z, columns 14 to 20: what it is used for.
fn put_use(g: Channel, s: &mut [u8])
    requires { length s.old ≡ 7 }
    ensures { s.new ≡ joined (drop 3 (channel_pieces g)) }
{
    write_text(&mut s[0..2], &g.class);
    write_text(&mut s[2..4], &g.service);
    write_text(&mut s[4..6], &g.users);
    write_byte(&mut s[6..7], g.carrier);
}

// 1A with its unit, 1Z and what follows, columns 1 to 20.
pub(crate) fn put_channel(g: Channel, s: &mut [u8])
    requires { length s.old ≡ 20 }
    ensures { s.new ≡ joined (channel_pieces g) }
{
    let transmit = g.transmit;
    put_amount(&mut s[0..11], transmit);
    put_unit(&mut s[11..12], transmit);
    write_byte(&mut s[12..13], g.category);
    put_use(g, &mut s[13..20]);
}

// 4C, 4D and 4Z, columns 52 to 75: the place on the ground.
fn put_location(g: Site, s: &mut [u8])
    requires { length s.old ≡ 24 }
    ensures { s.new ≡ joined (drop 3 (site_pieces g)) }
{
    put_position(&mut s[0..15], g.position);
    put_radius(&mut s[15..20], g.radius);
    put_height(&mut s[20..24], g.height);
}

// 2C, 4A, 4B and the place on the ground, columns 21 to 75.
pub(crate) fn put_site(g: Site, s: &mut [u8])
    requires { length s.old ≡ 55 }
    ensures { s.new ≡ joined (site_pieces g) }
{
    put_day(&mut s[0..8], g.started);
    write_text(&mut s[8..28], &g.name);
    write_text(&mut s[28..31], &g.country);
    put_location(g, &mut s[31..55]);
}

// 13Y, 2W, 2Z and 13X, columns 188 to 219: how it was coordinated.
fn put_status(g: Coordination, s: &mut [u8])
    requires { length s.old ≡ 32 }
    ensures { s.new ≡ joined (drop 3 (coordination_pieces g)) }
{
    write_byte(&mut s[0..1], g.status);
    put_day(&mut s[1..9], g.requested);
    put_day(&mut s[9..17], g.coordinated);
    write_text(&mut s[17..32], &g.reference);
}

// 1Y with its unit, 13Z and what follows, columns 126 to 219.
pub(crate) fn put_coordination(g: Coordination, s: &mut [u8])
    requires { length s.old ≡ 94 }
    ensures { s.new ≡ joined (coordination_pieces g) }
{
    let receive = g.receive;
    put_amount(&mut s[0..11], receive);
    put_unit(&mut s[11..12], receive);
    write_text(&mut s[12..62], &g.remarks);
    put_status(g, &mut s[62..94]);
}
