// A station's record with one value changed.
#![tactic(auto)]

ghost use Rattle.station.specs.Setting.{with_power, with_azimuth, with_elevation, with_height, with_ground};
ghost use Rattle.changing.specs.Promises.{RecordChanged};

use basics::Refusal;
use distances::Metres;
use formats::Tenths;
use reading::typed::read_station;
use settling::settle_record;

// Sets 8B1 in a station's record: 6, 9 with the code, or done; a refusal leaves every byte as it was.
pub fn change_power(rec: &mut [u8], v: Tenths) -> Result<(), Refusal>
    ensures { RecordChanged (λ s. with_power s v) rec.old result rec.new }
{
    let read = read_station(rec);
    settle_record(read, read.station.set_power(v), rec)
}

// Sets 9A.
pub fn change_azimuth(rec: &mut [u8], v: Tenths) -> Result<(), Refusal>
    ensures { RecordChanged (λ s. with_azimuth s v) rec.old result rec.new }
{
    let read = read_station(rec);
    settle_record(read, read.station.set_azimuth(v), rec)
}

// Sets 9B.
pub fn change_elevation(rec: &mut [u8], v: Tenths) -> Result<(), Refusal>
    ensures { RecordChanged (λ s. with_elevation s v) rec.old result rec.new }
{
    let read = read_station(rec);
    settle_record(read, read.station.set_elevation(v), rec)
}

// Sets 4Z.
pub fn change_height(rec: &mut [u8], v: Option<Metres>) -> Result<(), Refusal>
    ensures { RecordChanged (λ s. with_height s v) rec.old result rec.new }
{
    let read = read_station(rec);
    settle_record(read, read.station.set_height(v), rec)
}

// Sets 9Y.
pub fn change_ground(rec: &mut [u8], v: Metres) -> Result<(), Refusal>
    ensures { RecordChanged (λ s. with_ground s v) rec.old result rec.new }
{
    let read = read_station(rec);
    settle_record(read, read.station.set_ground(v), rec)
}
