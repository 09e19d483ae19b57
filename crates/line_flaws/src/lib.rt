// What is wrong with a line that is refused with 9: the flaw of the field that the code of its record names.
#![tactic(auto)]

ghost use Rattle.line_flaws.specs.Promises.{LineExplained};

use basics::Refusal;
use filling::put_fields;
use flaws::Flaw;
use splitting::lines::is_line;
use station_flaws::{Explained, explain_station};

// How reading a line ends, 10, 11, 9 with its code, or done, and the flaw that comes with the code.
pub fn explain_line(line: &[u8]) -> Explained
    ensures { LineExplained line.now result }
{
    if !is_line(line) {
        return Explained {
            outcome: Err(Refusal::NotALine),
            flaw: Flaw::None,
        };
    }
    let mut rec = [b' '; 219];
    if !put_fields(line, &mut rec) {
        return Explained {
            outcome: Err(Refusal::FieldTooLong),
            flaw: Flaw::None,
        };
    }
    explain_station(&rec)
}
