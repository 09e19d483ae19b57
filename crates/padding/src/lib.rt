// A field in its columns: how many a station's fields have, and on which side each is padded.
#![tactic(auto)]

ghost use Rattle.std.specs.Prelude.{◌≡◌, ◌++◌, ◌+◌, ◌≤◌, ◌<◌, length, get_or, take, drop};
ghost use Rattle.station.specs.Places.{station_places};
ghost use Rattle.semicolons.specs.Fields.{station_sides, spaces_before, padded_field};
ghost use Rattle.semicolons.specs.declared.Side.TheVariants as side;

use columns::texts::{write_blank, write_text};
use semicolons::Side;

// On which side each of the thirty fields is padded, in column order.
const SIDES: [Side; 30] = [
    Side::Left, // 1A
    Side::Right, // the unit of 1A
    Side::Right, // 1Z
    Side::Right, // 6A
    Side::Right, // 6B
    Side::Right, // 6Z
    Side::Right, // 10Z
    Side::Right, // 2C
    Side::Right, // 4A
    Side::Right, // 4B
    Side::Right, // 4C
    Side::Left, // 4D
    Side::Left, // 4Z
    Side::Right, // 7A
    Side::Left, // 8B1
    Side::Right, // 8B2
    Side::Left, // 9A
    Side::Left, // 9B
    Side::Right, // 9D
    Side::Left, // 9G
    Side::Left, // 9Y
    Side::Right, // 9XH
    Side::Right, // 9XV
    Side::Left, // 1Y
    Side::Right, // the unit of 1Y
    Side::Kept, // 13Z
    Side::Right, // 13Y
    Side::Right, // 2W
    Side::Right, // 2Z
    Side::Right, // 13X
];

// The side of the field that k fields stand before.
pub fn side_after(k: usize) -> Side
    requires { k < 30 }
    ensures { result ≡ get_or station_sides k side.Left }
{
    SIDES[k]
}

// How many columns each of them has, as the table of their places says; a small table of bytes, since each field asks it.
const WIDTHS: [u8; 30] = [
    11, // 1A
    1, // the unit of 1A
    1, // 1Z
    2, // 6A
    2, // 6B
    2, // 6Z
    1, // 10Z
    8, // 2C
    20, // 4A
    3, // 4B
    15, // 4C
    5, // 4D
    4, // 4Z
    9, // 7A
    6, // 8B1
    1, // 8B2
    5, // 9A
    5, // 9B
    2, // 9D
    4, // 9G
    4, // 9Y
    7, // 9XH
    7, // 9XV
    11, // 1Y
    1, // the unit of 1Y
    50, // 13Z
    1, // 13Y
    8, // 2W
    8, // 2Z
    15, // 13X
];

// The columns of the field that k fields stand before.
pub fn width_after(k: usize) -> usize
    requires { k < 30 }
    ensures { result ≡ (get_or station_places k (0, 0)).1 }
{
    let width = WIDTHS[k];
    width as usize
}

// How many spaces stand before a field of n bytes in w columns.
fn spaces_before(side: Side, w: usize, n: usize) -> usize
    requires { n ≤ w }
    ensures { result ≡ spaces_before side w n }
{
    match side {
        Side::Left => w - n,
        Side::Right => 0,
        Side::Kept => 0,
    }
}

// Puts a text into lent bytes, from the given place on.
// Not printing::pieces::put_text, which answers where it ends too: for that one line six crates more would stand below this one.
pub fn put_text(out: &mut [u8], start: usize, text: &[u8])
    requires { start + length text.now ≤ length out.old }
    ensures { out.new ≡ take start out.old ++ (text.now ++ drop (start + length text.now) out.old) }
{
    let end = start + text.len();
    write_text(&mut out[start..end], text);
}

// A field that is not too long in its columns, padded on its side; most fill their columns.
pub fn put_padded(columns: &mut [u8], field: &[u8], side: Side)
    requires { length field.now ≤ length columns.old }
    ensures { columns.new ≡ padded_field side (length columns.old) field.now }
{
    if write_text(columns, field) {
        return;
    }
    let start = spaces_before(side, columns.len(), field.len());
    write_blank(columns);
    put_text(columns, start, field);
}
