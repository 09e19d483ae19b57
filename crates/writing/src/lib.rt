// A typed station written into a lent record, each field straight into its own columns.
#![tactic(auto)]

ghost use Rattle.std.specs.Prelude.{◌≡◌, length};
ghost use Rattle.station.specs.Spelling.{spell_station};
ghost use Rattle.writing.specs.Promises.{StationWritten};

use crate::groups::{put_channel, put_coordination, put_site};
use basics::Refusal;
use emission_writing::{put_antenna, put_emission};
use station::Station;
use station::typed::typed_code;

mod groups;

// Writes a station, whatever it holds: the part of writing behind its tests, for callers that have judged it.
pub fn put_station(s: Station, buffer: &mut [u8])
    requires { length buffer.old ≡ 219 }
    ensures { buffer.new ≡ spell_station s }
{
    put_channel(s.channel, &mut buffer[0..20]);
    put_site(s.site, &mut buffer[20..75]);
    put_emission(s.emission, &mut buffer[75..101]);
    put_antenna(s.antenna, &mut buffer[101..125]);
    put_coordination(s.coordination, &mut buffer[125..219]);
}

// Writes a station into a lent buffer; it is refused where that has not 219 bytes, or the station breaks a rule, and then
// nothing is written.
pub fn write_station(s: Station, buffer: &mut [u8]) -> Result<(), Refusal>
    ensures { StationWritten s buffer.old result buffer.new }
{
    if buffer.len() != 219 {
        return Err(Refusal::BufferLength);
    }
    let code = typed_code(s);
    if code != 0 {
        return Err(Refusal::RuleBroken(code));
    }
    put_station(s, buffer);
    Ok(())
}
