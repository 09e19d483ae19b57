// The calls on single records: judged, written in the one spelling, and changed in one value.
ghost use Rattle.desk_records.specs.Promises.{StationCoded, StationKindTold, HeaderCoded, StationRespelled, HeaderRespelled, PowerChanged, AzimuthChanged, ElevationChanged, HeightChanged, GroundChanged};

use answers::answer;
use changing::{change_azimuth, change_elevation, change_ground, change_height, change_power};
use distances::Metres;
use flaws::flaw_number;
use header_judging::check_header;
use judging::check_station;
use respelling::{respell_header, respell_station};
use stating::{height_stated, tenths_stated};
use station_flaws::explain_station;

// Whether a station's record can be read: 6, 9 with its code, or 0.
#[unsafe(no_mangle)]
pub extern "C" fn desk_station_code(rec: &[u8], code: &mut u8) -> u8
    ensures { StationCoded rec.now result code.new }
{
    answer(check_station(rec), code)
}

// Whether a station's record can be read: 6, 9 with its code, or 0; and the kind of what is wrong with the field of that code, 0 where no rule is broken.
#[unsafe(no_mangle)]
pub extern "C" fn desk_station_kind(rec: &[u8], code: &mut u8, kind: &mut u8) -> u8
    ensures { StationKindTold rec.now result code.new kind.new }
{
    let told = explain_station(rec);
    *kind = flaw_number(told.flaw);
    answer(told.outcome, code)
}

// Whether a header's record can be read: 6, 9 with its code, or 0.
#[unsafe(no_mangle)]
pub extern "C" fn desk_header_code(rec: &[u8], code: &mut u8) -> u8
    ensures { HeaderCoded rec.now result code.new }
{
    answer(check_header(rec), code)
}

// Writes a station's record in the one spelling into a buffer: 6, 7, 9 with its code, or 0.
#[unsafe(no_mangle)]
pub extern "C" fn desk_respell_station(rec: &[u8], out: &mut [u8], code: &mut u8) -> u8
    ensures { StationRespelled rec.now out.old result out.new code.new }
{
    answer(respell_station(rec, out), code)
}

// Writes a header's record in the one spelling into a buffer: 6, 7, 9 with its code, or 0.
#[unsafe(no_mangle)]
pub extern "C" fn desk_respell_header(rec: &[u8], out: &mut [u8], code: &mut u8) -> u8
    ensures { HeaderRespelled rec.now out.old result out.new code.new }
{
    answer(respell_header(rec, out), code)
}

// Sets 8B1 in a station's record, in tenths of a dBW, or blank where `filled` is 0: 6, 9 with the code, or 0.
#[unsafe(no_mangle)]
pub extern "C" fn desk_set_power(rec: &mut [u8], filled: u8, tenths: i64, code: &mut u8) -> u8
    ensures { PowerChanged filled tenths rec.old result rec.new code.new }
{
    answer(change_power(rec, tenths_stated(filled, tenths)), code)
}

// Sets 9A in a station's record, in tenths of a degree, or blank where `filled` is 0: 6, 9 with the code, or 0.
#[unsafe(no_mangle)]
pub extern "C" fn desk_set_azimuth(rec: &mut [u8], filled: u8, tenths: i64, code: &mut u8) -> u8
    ensures { AzimuthChanged filled tenths rec.old result rec.new code.new }
{
    answer(change_azimuth(rec, tenths_stated(filled, tenths)), code)
}

// Sets 9B in a station's record, in tenths of a degree, or blank where `filled` is 0: 6, 9 with the code, or 0.
#[unsafe(no_mangle)]
pub extern "C" fn desk_set_elevation(rec: &mut [u8], filled: u8, tenths: i64, code: &mut u8) -> u8
    ensures { ElevationChanged filled tenths rec.old result rec.new code.new }
{
    answer(change_elevation(rec, tenths_stated(filled, tenths)), code)
}

// Sets 4Z in a station's record, in metres above sea, or blank where `filled` is 0: 6, 9 with the code, or 0.
#[unsafe(no_mangle)]
pub extern "C" fn desk_set_height(rec: &mut [u8], filled: u8, metres: i64, code: &mut u8) -> u8
    ensures { HeightChanged filled metres rec.old result rec.new code.new }
{
    answer(change_height(rec, height_stated(filled, metres)), code)
}

// Sets 9Y in a station's record, in metres above ground: 6, 9 with the code, or 0.
#[unsafe(no_mangle)]
pub extern "C" fn desk_set_ground(rec: &mut [u8], metres: i64, code: &mut u8) -> u8
    ensures { GroundChanged metres rec.old result rec.new code.new }
{
    answer(change_ground(rec, Metres(metres)), code)
}
