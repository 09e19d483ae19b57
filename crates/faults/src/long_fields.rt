// The first field of a line that is longer than its columns.
ghost use Rattle.faults.specs.Promises.{LongFieldFound};

use crate::LongField;
use places::station_place;
use splitting::lines::past;
use splitting::marks::field_length;

// Looks at the thirty fields of a text, one after the other.
pub fn long_field(line: &[u8]) -> LongField
    ensures { LongFieldFound line.now result }
{
    let mut at = 0;
    for k in 0..30 {
        let length = field_length(&line[at..]);
        let place = station_place(k + 1);
        let most = place.length;
        if most < length {
            return LongField {
                number: k + 1,
                length,
                most,
            };
        }
        at = past(line, at + length);
    }
    LongField {
        number: 0,
        length: 0,
        most: 0,
    }
}
