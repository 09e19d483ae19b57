// A carriage's line filed as a station's record, made from the record of the defaults.
#![tactic(auto)]

ghost use Rattle.std.specs.Prelude.{◌≡◌, true, length};
ghost use Rattle.basics.specs.Outcomes.{if_done, judged};
ghost use Rattle.station.specs.Codes.{value_of, station_code};
ghost use Rattle.station.specs.Spelling.{spell_station};
ghost use Rattle.vehicles.specs.Digits.{number_digits};
ghost use Rattle.semicolons.specs.Fields.{none_longer};
ghost use Rattle.carriage_lines.specs.Lines.{carriage_number, own_fields, own_places, carriage_record};
ghost use Rattle.carriage_lines.specs.Promises.{CarriageFiled};

use basics::Refusal;
use carriage_checks::check_given;
use carriage_lines::put_carriage;
use columns::texts::write_text;
use reading::typed::read_station;
use writing::put_station;

// Files a carriage whose line and defaults are not refused: 9 by the record that they make, or its station is written.
fn file_made(line: &[u8], defaults: &[u8], out: &mut [u8]) -> Result<(), Refusal>
    requires { (length out.old ≡ 219) × (length defaults.now ≡ 219) × (none_longer own_places (own_fields line.now) ≡ true) × (length (carriage_number line.now) ≡ number_digits) }
    ensures { (result ≡ judged (station_code (carriage_record line.now defaults.now))) × (out.new ≡ if_done result (spell_station (value_of (carriage_record line.now defaults.now))) out.old) }
{
    let mut rec = [b' '; 219];
    write_text(&mut rec, defaults);
    put_carriage(line, &mut rec);
    let read = read_station(&rec);
    read.outcome?;
    put_station(read.station, out);
    Ok(())
}

// Files a carriage's line as the record of its station, made from the record of the defaults; on a refusal nothing is written.
pub fn carriage_to_record(line: &[u8], defaults: &[u8], out: &mut [u8]) -> Result<(), Refusal>
    ensures { CarriageFiled line.now defaults.now out.old result out.new }
{
    if out.len() != 219 {
        return Err(Refusal::BufferLength);
    }
    check_given(line, defaults)?;
    file_made(line, defaults, out)
}
