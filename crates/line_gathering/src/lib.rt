// A line gathered part by part.
#![tactic(auto)]

ghost use Rattle.gathering.specs.Promises.{GoneOn};

use gathering::Gathered;
use line_parts::{hold, last_after, sum_to};
use splitting::marks::count;

// Gathers the next part of a line.
pub fn gather(buffer: &mut [u8; 250], kept: Gathered, part: &[u8]) -> Gathered
    ensures { GoneOn buffer.old kept part.now result buffer.new }
{
    let semicolons = sum_to(30, kept.semicolons, count(part, b';'));
    let feeds = sum_to(2, kept.feeds, count(part, 10));
    let last = last_after(kept.last, part);
    let held = hold(buffer, kept.held, part);
    Gathered {
        held,
        semicolons,
        feeds,
        last,
    }
}
