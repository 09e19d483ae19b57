// Positions: the coordinates 4C, read. Each half is an arc: degrees, a letter, minutes and seconds.
#![tactic(auto)]

ghost use Rattle.std.specs.Prelude.{◌≡◌, true, false, cond, ◌&&◌, ◌||◌, eqb};
ghost use Rattle.flaws.specs.Flaws.{unread};
ghost use Rattle.flaws.specs.declared.Flaw.TheVariants as flaw;
ghost use Rattle.numerals.specs.Numbers.{whole_filled};
ghost use Rattle.positions.specs.Positions.{position_good, position_of, admits_position, located_of};

use arcs::{Arc, arc_in, arc_seconds, is_arc, reads_arc};
use flaws::{Flaw, unread_of};

// A place on the ground in seconds of arc, east and north positive.
#[derive(Clone, Copy)]
pub struct Position {
    pub east: i64,
    pub north: i64,
}

// What is wrong with two halves that are no place, and with the columns that they stand in.
fn unread_position(east: Arc, north: Arc, s: &[u8]) -> Flaw
    ensures { result ≡ cond ((whole_filled east.degrees && (eqb east.letter 69 || (eqb east.letter 87 || false)) && whole_filled east.minutes && whole_filled east.seconds)
        && (whole_filled north.degrees && (eqb north.letter 78 || (eqb north.letter 83 || false)) && whole_filled north.minutes && whole_filled north.seconds))
        flaw.Range (unread admits_position s.now) }
{
    if !reads_arc(east, b'E', b'W') {
        return unread_of(b"0123456789EWNS ", s);
    }
    if !reads_arc(north, b'N', b'S') {
        return unread_of(b"0123456789EWNS ", s);
    }
    Flaw::Range
}

// A position: east or west in eight columns, north or south in seven; or what is wrong with the columns.
pub fn read_position(s: &[u8]) -> Result<Position, Flaw>
    ensures { result ≡ located_of s.now }
{
    if s.len() != 15 {
        return Err(unread_of(b"0123456789EWNS ", s));
    }
    let east = arc_in(&s[0..8], 3);
    let north = arc_in(&s[8..15], 2);
    if !is_arc(east, b'E', b'W', 180) {
        return Err(unread_position(east, north, s));
    }
    if !is_arc(north, b'N', b'S', 90) {
        return Err(unread_position(east, north, s));
    }
    Ok(Position {
        east: arc_seconds(east, b'W'),
        north: arc_seconds(north, b'S'),
    })
}

// The position, where it can be read.
pub fn position_in(s: &[u8]) -> Position
    requires { position_good s.now ≡ true }
    ensures { result ≡ position_of s.now }
{
    read_position(s).unwrap()
}
