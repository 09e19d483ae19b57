// A station's record on its way out, as a line. No typed station is made: a record that breaks no rule is respelled first.
#![tactic(auto)]

ghost use Rattle.lists.specs.Promises.{RecordListed};

use basics::Refusal;
use judging::check_station;
use own_spelling::put_respelled;
use spelled_lines::write_spelled;

// Writes the station of a record as a line; it is refused where the record has another length than 219 bytes, where it breaks
// a rule, or where the lent buffer is shorter than the line, and then nothing is written.
pub fn record_to_line(rec: &[u8], buffer: &mut [u8]) -> Result<usize, Refusal>
    ensures { RecordListed rec.now buffer.old result buffer.new }
{
    check_station(rec)?;
    let mut own = [b' '; 219];
    put_respelled(rec, &mut own);
    write_spelled(&own, buffer)
}
