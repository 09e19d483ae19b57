// The call for carriages: a carriage's line as a record.
ghost use Rattle.desk_lists.specs.Carriages.{CarriageRecordIn};

use answers::answer;
use carriage_filing::carriage_to_record;

// Writes the station of a carriage as a record into the lent bytes: 7, 6, 10, 11, 14, 15, 16, 9 with its code, or 0.
#[unsafe(no_mangle)]
pub extern "C" fn desk_carriage(line: &[u8], defaults: &[u8], rec: &mut [u8], code: &mut u8) -> u8
    ensures { CarriageRecordIn line.now defaults.now rec.old result rec.new code.new }
{
    answer(carriage_to_record(line, defaults, rec), code)
}
