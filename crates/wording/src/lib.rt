// What people read of fields and flaws: the names of the station's fields, and flaws in words.
#![tactic(auto)]

ghost use Rattle.std.specs.Prelude.{◌≡◌, ◌++◌, ◌-◌, ◌≤◌, length, replicate, IsTrue};
ghost use Rattle.columns.specs.Texts.{trimmed};
ghost use Rattle.fields.specs.Table.{station_table};
ghost use Rattle.wording.specs.Words.{flaw_words, name_at, named};

use flaws::Flaw;

// The names of the thirty fields, as the table has them.
const NAMES: [&str; 30] = [
    "1A",
    "unit of 1A",
    "1Z",
    "6A",
    "6B",
    "6Z",
    "10Z",
    "2C",
    "4A",
    "4B",
    "4C",
    "4D",
    "4Z",
    "7A",
    "8B1",
    "8B2",
    "9A",
    "9B",
    "9D",
    "9G",
    "9Y",
    "9XH",
    "9XV",
    "1Y",
    "unit of 1Y",
    "13Z",
    "13Y",
    "2W",
    "2Z",
    "13X",
];

// The name of field number k, of names that are the table's.
fn name_of(names: &[&'static str; 30], k: usize) -> &'static str
    requires named { IsTrue (named names.now station_table) }
    requires k_in_bounds { (1 ≤ k) × (k ≤ 30) }
    ensures value { result.now ≡ name_at k }
    ensures upper_bound { length result.now ≤ 10 }
{
    names[k - 1]
}

// The name of field number k, and none where there is no such field.
pub fn field_text(k: usize) -> &'static str
    ensures value { result.now ≡ name_at k }
    ensures upper_bound { length result.now ≤ 10 }
{
    if k == 0 {
        return "";
    }
    if k > 30 {
        return "";
    }
    name_of(&NAMES, k)
}

// A flaw in words behind a space; none has no words.
pub fn flaw_text(flaw: Flaw) -> &'static str
    ensures value { result.now ≡ flaw_words flaw }
    ensures upper_bound { length result.now ≤ 18 }
{
    match flaw {
        Flaw::None => "",
        Flaw::Byte => " byte not admitted",
        Flaw::Range => " out of range",
        Flaw::Shape => " cannot be read",
        Flaw::Between => " between fields",
    }
}

// A text of at most N bytes, and spaces behind it up to N.
fn padded<const N: usize>(text: &str) -> [u8; N]
    requires { length text.now ≤ N }
    ensures { result ≡ text.now ++ replicate (N - length text.now) 32 }
{
    let mut wide = [b' '; N];
    wide[..text.len()].copy_from_slice(text.as_bytes());
    wide
}

// The name of field number k, and spaces behind it; spaces alone where there is no such field.
pub fn field_name(k: usize) -> [u8; 10]
    ensures { (trimmed result ≡ name_at k) × (length result ≡ 10) }
{
    padded(field_text(k))
}

// A flaw in words behind a space, and spaces behind them; none has no words.
pub fn flaw_words(flaw: Flaw) -> [u8; 18]
    ensures { (trimmed result ≡ flaw_words flaw) × (length result ≡ 18) }
{
    padded(flaw_text(flaw))
}
