// How a line begins.
ghost use Rattle.gathering.specs.Promises.{Begun};

use crate::Gathered;

// What is kept of a line before its first byte.
pub fn nothing() -> Gathered
    ensures { Begun result }
{
    Gathered {
        held: 0,
        semicolons: 0,
        feeds: 0,
        last: 0,
    }
}
