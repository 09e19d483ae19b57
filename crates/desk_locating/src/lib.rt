// The library for callers in C and Rust, its calls that tell where something stands in lent bytes, or how long it is, and judge no record: functions on
// numbers and lent bytes, under names with the prefix `desk_`.
#![tactic(auto)]

ghost use Rattle.std.specs.Prelude.{◌≡◌, cond};
ghost use Rattle.desk_locating.specs.Promises.{FieldLocated, NumberLocated, MarksTold, LongFieldTold};

use basics::outcomes::refusal_number;
use faults::long_fields::long_field;
use faults::marking::{has_marks, line_marks};
use places::field_place;
use showing::show_outcome;
use vehicle_names::number_in;

// Where a field stands in the file and how long it is: 1, 2, 5, 8, or 0.
#[unsafe(no_mangle)]
pub extern "C" fn desk_show(
    file: &[u8],
    number: usize,
    field: usize,
    offset: &mut usize,
    length: &mut usize,
) -> u8
    ensures { FieldLocated file.now number field result offset.new length.new }
{
    let outcome = show_outcome(file, number, field);
    if outcome.is_err() {
        *offset = 0;
        *length = 0;
        return refusal_number(outcome);
    }
    let place = field_place(number, field);
    let before = place.first - 1;
    *offset = 219 * number + before;
    *length = place.length;
    0
}

// How many digits of a vehicle number a name holds, 12 or 0, and at which offset they begin.
#[unsafe(no_mangle)]
pub extern "C" fn desk_carriage_number(name: &[u8], offset: &mut usize) -> usize
    ensures { NumberLocated name.now result offset.new }
{
    let number = number_in(name);
    let n = number.len();
    if n == 0 {
        *offset = 0;
    } else {
        *offset = 5;
    }
    n
}

// A test as a number.
fn as_number(test: bool) -> u8
    ensures { result ≡ cond test 1 0 }
{
    if test {
        return 1;
    }
    0
}

// How many semicolons and line feeds a line has, and whether it ends in a line feed: 10 where they are not those of a line, or 0.
#[unsafe(no_mangle)]
pub extern "C" fn desk_line_marks(
    line: &[u8],
    semicolons: &mut usize,
    feeds: &mut usize,
    ended: &mut u8,
) -> u8
    ensures { MarksTold line.now result semicolons.new feeds.new ended.new }
{
    let marks = line_marks(line);
    *semicolons = marks.semicolons;
    *feeds = marks.feeds;
    *ended = as_number(marks.ended);
    if has_marks(marks) {
        return 0;
    }
    10
}

// The first field of a line that is longer than its columns, by its number, its bytes and its columns: 11, or 0 and zeros.
#[unsafe(no_mangle)]
pub extern "C" fn desk_long_field(
    line: &[u8],
    number: &mut usize,
    length: &mut usize,
    most: &mut usize,
) -> u8
    ensures { LongFieldTold line.now result number.new length.new most.new }
{
    let field = long_field(line);
    *number = field.number;
    *length = field.length;
    *most = field.most;
    if field.number == 0 {
        return 0;
    }
    11
}
