// A line on its way in, as a station's record. No typed station is made: a record that breaks no rule is respelled where it stands.
#![tactic(auto)]

ghost use Rattle.std.specs.Prelude.{◌≡◌, true, eqb, length};
ghost use Rattle.basics.specs.Outcomes.{refusal};
ghost use Rattle.semicolons.specs.Lines.{record_of};
ghost use Rattle.lists.specs.Calls.{line_outcome};
ghost use Rattle.lists.specs.Promises.{LineFiled};

use basics::Refusal;
use filling::put_fields;
use judging::check_station;
use own_spelling::put_respelled;
use splitting::lines::is_line;

// Puts the fields of a line into a record, and answers how reading the line ends; where it is done, all of them stand there.
fn record_in(line: &[u8], rec: &mut [u8]) -> Result<(), Refusal>
    requires { length rec.old ≡ 219 }
    ensures { (result ≡ line_outcome line.now) × (eqb (refusal result) 0 ≡ true → rec.new ≡ record_of line.now) }
{
    if !is_line(line) {
        return Err(Refusal::NotALine);
    }
    if !put_fields(line, rec) {
        return Err(Refusal::FieldTooLong);
    }
    check_station(rec)
}

// Writes the station of a line as a record; it is refused where the lent bytes are not 219, or where reading the line is, and
// then nothing is written.
pub fn line_to_record(line: &[u8], out: &mut [u8]) -> Result<(), Refusal>
    ensures { LineFiled line.now out.old result out.new }
{
    if out.len() != 219 {
        return Err(Refusal::BufferLength);
    }
    let mut rec = [b' '; 219];
    let outcome = record_in(line, &mut rec);
    if outcome.is_ok() {
        put_respelled(&rec, out);
    }
    outcome
}
