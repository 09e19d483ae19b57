// The marks of a line.
ghost use Rattle.std.specs.Prelude.{◌≡◌};
ghost use Rattle.semicolons.specs.Lines.{is_feed, last_byte};
ghost use Rattle.faults.specs.Faults.{has_marks};
ghost use Rattle.faults.specs.Promises.{LineMarked};

use crate::Marks;
use splitting::lines::last_byte;
use splitting::marks::count;

// Whether a text ends in a line feed.
fn ends_in_feed(line: &[u8]) -> bool
    ensures { result ≡ is_feed (last_byte line.now) }
{
    last_byte(line) == 10
}

// The marks that a text has.
pub fn line_marks(line: &[u8]) -> Marks
    ensures { LineMarked line.now result }
{
    let semicolons = count(line, b';');
    let feeds = count(line, 10);
    Marks {
        semicolons,
        feeds,
        ended: ends_in_feed(line),
    }
}

// Whether they are the marks of a line.
pub fn has_marks(marks: Marks) -> bool
    ensures { result ≡ has_marks marks }
{
    if marks.semicolons != 29 {
        return false;
    }
    if marks.feeds != 1 {
        return false;
    }
    marks.ended
}
