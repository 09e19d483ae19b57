// A record that breaks no rule, written in the one spelling: it is copied, and numbers are respelled where they stand, since only numbers can be spelled in more than one way.
#![tactic(auto)]

ghost use Rattle.std.specs.Prelude.{◌≡◌, true, length, take};
ghost use Rattle.basics.specs.Fields.{joined};
ghost use Rattle.positions.specs.Positions.{position_good};
ghost use Rattle.station.specs.Spelling.{spell_station};
ghost use Rattle.station.specs.Codes.{value_of, station_code};
ghost use Rattle.own_spelling.specs.OwnSpelling.{location_anew, beam_anew};

use crate::numbers::{respell_decimal, respell_height, respell_position, respell_whole};
use columns::texts::write_text;
use formats::Format;

mod numbers;

// 4C, 4D and 4Z, columns 52 to 75.
fn respell_location(s: &mut [u8])
    requires { (length s.old ≡ 24) × (position_good (take 15 s.old) ≡ true) }
    ensures { s.new ≡ joined (location_anew s.old) }
{
    respell_position(&mut s[0..15]);
    respell_whole(&mut s[15..20]);
    respell_height(&mut s[20..24]);
}

// 8B1, 9A, 9B, 9G and 9Y, of columns 85 to 111.
fn respell_beam(s: &mut [u8])
    requires { length s.old ≡ 27 }
    ensures { s.new ≡ joined (beam_anew s.old) }
{
    respell_decimal(Format::Power, &mut s[0..6]);
    respell_decimal(Format::Azimuth, &mut s[7..12]);
    respell_decimal(Format::Elevation, &mut s[12..17]);
    respell_decimal(Format::Gain, &mut s[19..23]);
    respell_whole(&mut s[23..27]);
}

// Writes a station's record that breaks no rule in its one spelling.
fn respell_in_place(rec: &mut [u8])
    requires { (length rec.old ≡ 219) × (station_code rec.old ≡ 0) }
    ensures { rec.new ≡ spell_station (value_of rec.old) }
{
    respell_decimal(Format::Frequency, &mut rec[0..11]);
    respell_location(&mut rec[51..75]);
    respell_beam(&mut rec[84..111]);
    respell_decimal(Format::Frequency, &mut rec[125..136]);
}

// Writes a station's record that breaks no rule in its one spelling into a buffer: it is copied, and respelled there.
pub fn put_respelled(rec: &[u8], out: &mut [u8])
    requires { (length rec.now ≡ 219) × (length out.old ≡ 219) × (station_code rec.now ≡ 0) }
    ensures { out.new ≡ spell_station (value_of rec.now) }
{
    write_text(out, rec);
    respell_in_place(out);
}
