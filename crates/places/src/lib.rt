// Where the fields of a header and of a station stand in their records.
#![tactic(auto)]

ghost use Rattle.places.specs.Promises.{HeaderPlaced, StationPlaced, FieldPlaced};

use basics::Place;
use basics::places::place_in;

// The first column of each field of a header, counted from 1, and its length.
pub const HEADER_PLACES: [[usize; 2]; 14] = [
    [1, 2],
    [3, 80],
    [83, 1],
    [84, 3],
    [87, 40],
    [127, 20],
    [147, 20],
    [167, 20],
    [187, 6],
    [193, 8],
    [201, 3],
    [204, 6],
    [210, 3],
    [213, 7],
];

// The first column of each field of a station, counted from 1, and its length.
pub const STATION_PLACES: [[usize; 2]; 30] = [
    [1, 11],
    [12, 1],
    [13, 1],
    [14, 2],
    [16, 2],
    [18, 2],
    [20, 1],
    [21, 8],
    [29, 20],
    [49, 3],
    [52, 15],
    [67, 5],
    [72, 4],
    [76, 9],
    [85, 6],
    [91, 1],
    [92, 5],
    [97, 5],
    [102, 2],
    [104, 4],
    [108, 4],
    [112, 7],
    [119, 7],
    [126, 11],
    [137, 1],
    [138, 50],
    [188, 1],
    [189, 8],
    [197, 8],
    [205, 15],
];

// The place of a header's field number j, counted from 1; column 0 and no length where there is no such field.
pub fn header_place(j: usize) -> Place
    ensures { HeaderPlaced j result }
{
    place_in(&HEADER_PLACES, j)
}

// The place of a station's field number j, in the same way.
pub fn station_place(j: usize) -> Place
    ensures { StationPlaced j result }
{
    place_in(&STATION_PLACES, j)
}

// The place of field j in record k; column 0 and no length where there is no such field.
pub fn field_place(k: usize, j: usize) -> Place
    ensures { FieldPlaced k j result }
{
    if k == 0 {
        return header_place(j);
    }
    station_place(j)
}
