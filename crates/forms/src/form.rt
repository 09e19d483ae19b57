// The form of a sheet: how many bytes a number, a row and the trailer have, and where the parts of a row and of the trailer stand in it.

pub const NUMBER_BYTES: usize = 2;

pub const ROW_NUMBERS: usize = 2;

pub const ROW_WIDTH: usize = 1 + ROW_NUMBERS * NUMBER_BYTES;

pub const WIDTH_BYTE: u8 = 5;

pub const TRAILER_LENGTH: usize = 6 + 2 * NUMBER_BYTES;

pub const TWIN_PLACE: usize = 1;

pub const CLASH_PLACE: usize = 1 + NUMBER_BYTES;

pub const HEAD_PLACE: usize = 3;

pub const LOWEST_PLACE: usize = 4;

pub const FOUND_PLACE: usize = 4 + NUMBER_BYTES;

pub const MARK_PLACE: usize = 4 + 2 * NUMBER_BYTES;
