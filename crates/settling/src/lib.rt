// A station that was read and set, written back into its record.
#![tactic(auto)]

ghost use Rattle.std.specs.Prelude.{◌≡◌, true, eqb, Ok};
ghost use Rattle.basics.specs.Outcomes.{refusal};
ghost use Rattle.station.specs.Calls.{write_outcome};
ghost use Rattle.settling.specs.Promises.{RecordSettled};

use basics::Refusal;
use reading::typed::ReadStation;
use station::setting::Settled;
use writing::put_station;

// Writes a settled station into the record that it was read from; where reading or setting was refused nothing is written. It was judged
// when it was set, and is not judged again.
pub fn settle_record(read: ReadStation, settled: Settled, rec: &mut [u8]) -> Result<(), Refusal>
    requires { eqb (refusal read.outcome) 0 ≡ true → eqb (refusal settled.outcome) 0 ≡ true → write_outcome settled.station rec.old ≡ Ok tt }
    ensures { RecordSettled read settled rec.old result rec.new }
{
    read.outcome?;
    settled.outcome?;
    put_station(settled.station, rec);
    Ok(())
}
