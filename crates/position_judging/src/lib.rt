// Positions judged: whether the coordinates 4C can be read, told by all columns at once where they stand in the one spelling.
#![tactic(auto)]

ghost use Rattle.std.specs.Prelude.{◌≡◌, true};
ghost use Rattle.positions.specs.Positions.{position_good};

use arcs::is_hemisphere;
use columns::texts::is_framed;
use positions::read_position;

// Whether a position stands in its one spelling, below 180 degrees and 90: it can be read. All columns are asked at once, the last eight with one of the first.
fn is_plain(s: &[u8]) -> bool
    ensures { result ≡ true → position_good s.now ≡ true }
{
    if s.len() != 15 {
        return false;
    }
    let letters = is_hemisphere(b'E', b'W', s[3]) & is_hemisphere(b'N', b'S', s[10]);
    let east = is_framed(&s[0..8], b"000E0000", b"099W5959")
        | is_framed(&s[0..8], b"100E0000", b"179W5959");
    letters & east & is_framed(&s[7..15], b"000N0000", b"989S5959")
}

// Whether a position can be read.
pub fn is_position(s: &[u8]) -> bool
    ensures { result ≡ position_good s.now }
{
    if is_plain(s) {
        return true;
    }
    read_position(s).is_ok()
}
