// The calls on lines of a semicolon list: a record as a line, and a line as a record.
ghost use Rattle.desk_lists.specs.Promises.{RecordLineOut, LineRecordIn};

use answers::answer;
use basics::outcomes::ended;
use lines_in::line_to_record;
use lines_out::record_to_line;

// Writes a station's record as a line into the lent bytes: 6, 9 with its code, 12, or 0 and the line's length.
#[unsafe(no_mangle)]
pub extern "C" fn desk_list_out(
    rec: &[u8],
    line: &mut [u8],
    length: &mut usize,
    code: &mut u8,
) -> u8
    ensures { RecordLineOut rec.now line.old result line.new length.new code.new }
{
    let written = record_to_line(rec, line);
    *length = written.unwrap_or(0);
    answer(ended(written), code)
}

// Writes the station of a line as a record into the lent bytes: 7, 10, 11, 9 with its code, or 0.
#[unsafe(no_mangle)]
pub extern "C" fn desk_list_in(line: &[u8], rec: &mut [u8], code: &mut u8) -> u8
    ensures { LineRecordIn line.now rec.old result rec.new code.new }
{
    answer(line_to_record(line, rec), code)
}
