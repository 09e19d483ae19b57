// A record in its one spelling as a line.
#![tactic(auto)]

ghost use Rattle.std.specs.Prelude.{◌≡◌, length};
ghost use Rattle.station.specs.Spelling.{spell_station};
ghost use Rattle.station.specs.Codes.{value_of, typed_code};
ghost use Rattle.lists.specs.Promises.{LineWritten};

use basics::Refusal;
use joining::{put_first, put_line};

// Writes the record of a station that breaks no rule, in its one spelling, as a line; it is refused where the lent buffer is shorter than the line.
pub fn write_spelled(rec: &[u8], buffer: &mut [u8]) -> Result<usize, Refusal>
    requires { (length rec.now ≡ 219) × (typed_code (value_of rec.now) ≡ 0) × (rec.now ≡ spell_station (value_of rec.now)) }
    ensures { LineWritten (value_of rec.now) buffer.old result buffer.new }
{
    let mut line = [b' '; 249];
    let n = put_line(rec, &mut line);
    if buffer.len() < n {
        return Err(Refusal::BufferTooShort);
    }
    put_first(buffer, &line, n);
    Ok(n)
}
