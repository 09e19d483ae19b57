// A line read as a typed station, and a typed station written as a line.
#![tactic(auto)]

ghost use Rattle.lists.specs.Promises.{LineRead, LineWritten};

use basics::Refusal;
use empties::empty_station;
use filling::put_fields;
use lists::ReadLine;
use reading::typed::read_station;
use spelled_lines::write_spelled;
use splitting::lines::is_line;
use station::Station;
use station::typed::typed_code;
use writing::put_station;

// Reads a line; it is refused where it is none, where a field is longer than its columns, or where the station breaks a rule.
pub fn read_line(line: &[u8]) -> ReadLine
    ensures { LineRead line.now result }
{
    if !is_line(line) {
        return ReadLine {
            outcome: Err(Refusal::NotALine),
            station: empty_station(),
        };
    }
    let mut rec = [b' '; 219];
    if !put_fields(line, &mut rec) {
        return ReadLine {
            outcome: Err(Refusal::FieldTooLong),
            station: empty_station(),
        };
    }
    let read = read_station(&rec);
    ReadLine {
        outcome: read.outcome,
        station: read.station,
    }
}

// Writes a station as a line; it is refused where it breaks a rule, or where the lent buffer is shorter than the line, and
// then nothing is written.
pub fn write_line(s: Station, buffer: &mut [u8]) -> Result<usize, Refusal>
    ensures { LineWritten s buffer.old result buffer.new }
{
    let code = typed_code(s);
    if code != 0 {
        return Err(Refusal::RuleBroken(code));
    }
    let mut rec = [b' '; 219];
    put_station(s, &mut rec);
    write_spelled(&rec, buffer)
}
