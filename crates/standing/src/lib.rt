// Standing: whether two stations of a file stand at one place and one height.
#![tactic(auto)]

ghost use Rattle.std.specs.Prelude.{◌≡◌, true};
ghost use Rattle.files.specs.Files.{HasRecord};
ghost use Rattle.standing.specs.Standing.{same_count, same_position, same_place, stand_alike};

use columns::texts::equal;
use distances::Metres;
use files::lengths::whole_record;
use flaws::Flaw;
use positions::Position;
use stations::{ground, position};
use words::equal_words;

// Whether two counts are equal.
fn same_count(a: i64, b: i64) -> bool
    ensures { result ≡ same_count a b }
{
    a == b
}

// Whether two positions agree in both counts of seconds.
fn same_position(a: Position, b: Position) -> bool
    ensures { result ≡ same_position a b }
{
    if same_count(a.east, b.east) {
        same_count(a.north, b.north)
    } else {
        false
    }
}

// Whether two heights are one.
fn same_height(a: Metres, b: Metres) -> bool
    ensures { result ≡ same_count a.0 b.0 }
{
    same_count(a.0, b.0)
}

// Whether two places are one.
fn same_place(a: Result<Position, Flaw>, b: Result<Position, Flaw>) -> bool
    ensures { result ≡ same_place a b }
{
    match a {
        Ok(p) => match b {
            Ok(q) => same_position(p, q),
            Err(_) => false,
        },
        Err(_) => b.is_err(),
    }
}

// Whether stations i and k stand at one place and height; the height, which costs less, is asked first.
fn stand_alike(file: &[u8], i: usize, k: usize) -> bool
    requires { HasRecord file.now i × HasRecord file.now k }
    ensures { result ≡ stand_alike file.now i k }
{
    if same_height(ground(file, i), ground(file, k)) {
        same_place(position(file, i), position(file, k))
    } else {
        false
    }
}

// Whether stations i and k spell place and height in the same bytes: then they stand alike, and need not be read.
fn spelled_alike(file: &[u8], i: usize, k: usize) -> bool
    requires { HasRecord file.now i × HasRecord file.now k }
    ensures { result ≡ true → stand_alike file.now i k ≡ true }
{
    let theirs = whole_record(file, i);
    let mine = whole_record(file, k);
    if equal_words(&theirs[51..66], &mine[51..66]) {
        equal(&theirs[107..111], &mine[107..111])
    } else {
        false
    }
}

// Whether stations i and k stand at one place and height; what is spelled alike is not read.
pub fn alike(file: &[u8], i: usize, k: usize) -> bool
    requires { HasRecord file.now i × HasRecord file.now k }
    ensures { result ≡ stand_alike file.now i k }
{
    if spelled_alike(file, i, k) {
        return true;
    }
    stand_alike(file, i, k)
}
