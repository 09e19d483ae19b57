// The two tables of a station's rules, in numbers.
#![tactic(auto)]

ghost use Rattle.rule_tables.specs.Told.{EntriesTell, RowsTell};

// The highest of an entry that has none.
pub const ANY: usize = 18446744073709551615;

// First column, length, kind, lowest, highest, 1 where the field may be blank. With a sign the lowest is so far below zero; a byte's are its codes; 0 where the kind has none.
// Kinds: 0 13Z, 1 frequency, 2 decimal, 3 decimal with a sign, 4 whole number with a sign, 5 date, 6 unit, 7 whole number, 8 byte from lowest to highest, 9 one of two
// bytes, 10 class, 11 service, 12 users, 13 name, 14 country, 15 4C, 16 7A, 17 polarisation, 18 type of antenna, 19 reference.
pub const ENTRIES: [[usize; 6]; 30] = [
    [1, 11, 1, 1, ANY, 1], // 1A
    [12, 1, 6, 0, 0, 1], // its unit
    [13, 1, 8, 49, 56, 0], // 1Z
    [14, 2, 10, 0, 0, 0], // 6A
    [16, 2, 11, 0, 0, 0], // 6B
    [18, 2, 12, 0, 0, 0], // 6Z
    [20, 1, 9, 48, 49, 0], // 10Z
    [21, 8, 5, 0, 0, 1], // 2C
    [29, 20, 13, 0, 0, 0], // 4A
    [49, 3, 14, 0, 0, 0], // 4B
    [52, 15, 15, 0, 0, 0], // 4C
    [67, 5, 7, 0, ANY, 0], // 4D
    [72, 4, 4, 999, 9999, 1], // 4Z
    [76, 9, 16, 0, 0, 0], // 7A
    [85, 6, 3, ANY, ANY, 1], // 8B1
    [91, 1, 9, 69, 73, 0], // 8B2
    [92, 5, 2, 0, 3599, 1], // 9A
    [97, 5, 3, 900, 900, 1], // 9B
    [102, 2, 17, 0, 0, 0], // 9D
    [104, 4, 2, 0, ANY, 1], // 9G
    [108, 4, 7, 0, ANY, 0], // 9Y
    [112, 7, 18, 0, 0, 0], // 9XH
    [119, 7, 18, 0, 0, 0], // 9XV
    [126, 11, 1, 1, ANY, 1], // 1Y
    [137, 1, 6, 0, 0, 1], // its unit
    [138, 50, 0, 0, 0, 1], // 13Z
    [188, 1, 9, 70, 66, 0], // 13Y
    [189, 8, 5, 0, 0, 1], // 2W
    [197, 8, 5, 0, 0, 1], // 2Z
    [205, 15, 19, 0, 0, 0], // 13X
];

// A code, and two facts that never stand together: each the number of a fact, of a field, and 1 where it stands or 0 where it does not.
// Facts: 0 is filled, 1 begins with M, 2 is FL, 3 is 0, 4 is 000ND00, 5 ends in _R.
pub const ROWS: [[usize; 7]; 13] = [
    [2, 0, 1, 1, 0, 2, 0], // 1A filled, its unit blank
    [2, 0, 1, 0, 0, 2, 1], // 1A blank, its unit filled
    [25, 0, 24, 1, 0, 25, 0], // 1Y filled, its unit blank
    [25, 0, 24, 0, 0, 25, 1], // 1Y blank, its unit filled
    [31, 0, 1, 0, 0, 24, 0], // neither 1A nor 1Y filled
    [32, 0, 1, 0, 0, 15, 1], // 1A blank, 8B1 filled
    [33, 1, 4, 0, 3, 12, 0], // 6A does not begin with M, 4D not 0
    [34, 1, 4, 1, 0, 17, 1], // 6A begins with M, 9A filled
    [35, 0, 17, 0, 4, 22, 0], // 9A blank, 9XH not 000ND00
    [36, 0, 18, 0, 4, 23, 0], // 9B blank, 9XV not 000ND00
    [37, 1, 4, 1, 0, 13, 1], // 6A begins with M, 4Z filled
    [38, 0, 24, 1, 0, 20, 0], // 1Y filled, 9G blank
    [39, 2, 4, 1, 5, 9, 0], // 6A is FL, the name does not end in _R
];

// The entries, which say of every field what its row of the station's table says.
pub fn entry_table() -> [[usize; 6]; 30]
    ensures { EntriesTell result }
{
    ENTRIES
}

// The rows, which say of every record what the rules between its fields say.
pub fn row_table() -> [[usize; 7]; 13]
    ensures { RowsTell result }
{
    ROWS
}
