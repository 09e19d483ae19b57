// Filing a line that was gathered.
#![tactic(auto)]

ghost use Rattle.std.specs.Prelude.{◌≡◌, take};
ghost use Rattle.lists.specs.Promises.{LineFiled};
ghost use Rattle.gathered_records.specs.Calls.{long_outcome};
ghost use Rattle.gathered_records.specs.Promises.{GatheredFiled};

use basics::Refusal;
use gathering::Gathered;
use lines_in::line_to_record;

// How a line that is too long for a record is refused.
fn refusal(gathered: Gathered) -> Result<(), Refusal>
    ensures { result ≡ long_outcome gathered }
{
    if gathered.semicolons != 29 {
        return Err(Refusal::NotALine);
    }
    if gathered.feeds != 1 {
        return Err(Refusal::NotALine);
    }
    if gathered.last != 10 {
        return Err(Refusal::NotALine);
    }
    Err(Refusal::FieldTooLong)
}

// Writes the station of a line that is held whole as a record.
fn file_held(buffer: &[u8], held: usize, out: &mut [u8]) -> Result<(), Refusal>
    ensures { LineFiled (take held buffer.now) out.old result out.new }
{
    if buffer.len() < held {
        return line_to_record(buffer, out);
    }
    line_to_record(&buffer[..held], out)
}

// Writes the station of a gathered line as a record; it is refused as the whole line would be, and then nothing is written.
pub fn file_gathered(buffer: &[u8; 250], gathered: Gathered, out: &mut [u8]) -> Result<(), Refusal>
    ensures { GatheredFiled buffer.now gathered out.old result out.new }
{
    if gathered.held <= 249 {
        return file_held(buffer, gathered.held, out);
    }
    if out.len() != 219 {
        return Err(Refusal::BufferLength);
    }
    refusal(gathered)
}
