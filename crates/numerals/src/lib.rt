// Whole numbers without a sign, read.
#![tactic(auto)]

ghost use Rattle.std.specs.Prelude.{◌≡◌, true, ◌-◌, ◌^◌, ◌≤◌, ◌<◌, length};
ghost use Rattle.columns.specs.Sets.{is_digit};
ghost use Rattle.columns.specs.Texts.{every};
ghost use Rattle.numerals.specs.Numbers.{leading, number_from, number, whole_digits, whole_of, amount, whole_filled};

use columns::sets::is_digit;
use columns::texts::{byte, spaces};

// That columns say no whole number, and are not blank.
#[derive(Clone, Copy)]
pub struct Unread;

// Digits that were read: what they say, and how many there are.
#[derive(Clone, Copy)]
pub struct Taken {
    pub value: u64,
    pub count: usize,
}

// The digits that stand first, as many as there may be, read onto v.
pub fn digits(t: &[u8], most: usize, v: u64) -> Taken
    requires { (most ≤ 18) × (v < 10 ^ (18 - most)) }
    ensures { (result.count ≡ length (leading most t.now)) × (result.value ≡ number_from v (leading most t.now)) }
{
    let mut value = v;
    for count in 0..most {
        let c = byte(t, count);
        if !is_digit(c) {
            return Taken { value, count };
        }
        value = value * 10 + u64::from(c - b'0');
    }
    Taken { value, count: most }
}

// The number that digits say, where nothing else is there.
pub fn number_of(p: &[u8]) -> u64
    requires { (length p.now ≤ 18) × (every is_digit p.now ≡ true) }
    ensures { result ≡ number p.now }
{
    let mut value = 0;
    for c in p {
        value = value * 10 + u64::from(*c - b'0');
    }
    value
}

// At least one digit, and digits to the end.
pub fn only_digits(t: &[u8]) -> Result<Option<u64>, Unread>
    ensures { result ≡ whole_digits t.now }
{
    let d = digits(t, 18, 0);
    let n = d.count;
    if n == 0 {
        return Err(Unread);
    }
    if n == t.len() {
        return Ok(Some(d.value));
    }
    Err(Unread)
}

// Spaces, then digits to the last column, at least one digit.
pub fn read_whole(s: &[u8]) -> Result<Option<u64>, Unread>
    ensures { result ≡ whole_of s.now }
{
    let i = spaces(s);
    if i == s.len() {
        return Ok(None);
    }
    only_digits(&s[i..])
}

// Whether a whole number was read.
pub fn says_number(w: Result<Option<u64>, Unread>) -> bool
    ensures { result ≡ whole_filled w }
{
    w.unwrap_or(None).is_some()
}

// The whole number that was read, 0 where there is none.
pub fn amount_of(w: Result<Option<u64>, Unread>) -> u64
    ensures { result ≡ amount w }
{
    w.unwrap_or(None).unwrap_or(0)
}

// The whole number that is there, 0 where there is none.
pub fn amount_in(s: &[u8]) -> u64
    ensures { result ≡ amount (whole_of s.now) }
{
    amount_of(read_whole(s))
}
