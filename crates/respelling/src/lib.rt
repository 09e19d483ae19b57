// A record in its one spelling.
#![tactic(auto)]

ghost use Rattle.std.specs.Prelude.{◌≡◌, [], ◌∷◌};
ghost use Rattle.basics.specs.Outcomes.{first_refusal, record_test, buffer_test};
ghost use Rattle.respelling.specs.Promises.{StationRespelled, HeaderRespelled};

use basics::Refusal;
use files::lengths::RECORD_LENGTH;
use header_reading::read_header;
use header_writing::put_header;
use judging::check_station;
use own_spelling::put_respelled;

// Whether a record and a buffer have a record's length: 6, then 7, or done.
fn check_lengths(rec: &[u8], out: &[u8]) -> Result<(), Refusal>
    ensures { result ≡ first_refusal (record_test rec.now ∷ buffer_test out.now ∷ []) }
{
    if rec.len() != RECORD_LENGTH {
        return Err(Refusal::RecordLength);
    }
    if out.len() != RECORD_LENGTH {
        return Err(Refusal::BufferLength);
    }
    Ok(())
}

// Writes a station's record in the one spelling into a buffer: 6, 7, 9 with its code, or done; a refusal leaves every byte as it was. What breaks no
// rule is copied, and only numbers in another spelling are written anew.
pub fn respell_station(rec: &[u8], out: &mut [u8]) -> Result<(), Refusal>
    ensures { StationRespelled rec.now out.old result out.new }
{
    check_lengths(rec, out)?;
    check_station(rec)?;
    put_respelled(rec, out);
    Ok(())
}

// Writes a header's record in the one spelling into a buffer, and ends as `respell_station` does.
pub fn respell_header(rec: &[u8], out: &mut [u8]) -> Result<(), Refusal>
    ensures { HeaderRespelled rec.now out.old result out.new }
{
    check_lengths(rec, out)?;
    let read = read_header(rec);
    read.outcome?;
    put_header(read.header, out);
    Ok(())
}
