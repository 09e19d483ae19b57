// Whole numbers with a sign, read.
#![tactic(auto)]

ghost use Rattle.std.specs.Prelude.{◌≡◌, ◌^◌, ◌<◌};
ghost use Rattle.flaws.specs.Flaws.{letter_of, unread};
ghost use Rattle.numerals.specs.Numbers.{amount, with_sign, in_sign, has_minus, unsigned, signed_of};

use columns::texts::{byte, spaces};
use flaws::{Flaw, unread_of};
use numerals::{Unread, only_digits};

// v, or -v.
fn with_sign(minus: bool, v: u64) -> i64
    requires { v < 10 ^ 18 }
    ensures { result ≡ with_sign minus v }
{
    let n = v as i64;
    if minus { 0 - n } else { n }
}

// A number whose sign is known; where the digits of a field say none, what is wrong with the field, by the letters that it admits.
pub fn in_sign(
    minus: bool,
    w: Result<Option<u64>, Unread>,
    letters: &[u8],
    s: &[u8],
) -> Result<Option<i64>, Flaw>
    requires { amount w < 10 ^ 18 }
    ensures { result ≡ in_sign (unread (letter_of letters.now) s.now) minus w }
{
    match w.unwrap_or(None) {
        Some(v) => Ok(Some(with_sign(minus, v))),
        None => Err(unread_of(letters, s)),
    }
}

// A minus stands first where a sign may.
pub fn has_minus(sign: bool, t: &[u8]) -> bool
    ensures { result ≡ has_minus sign t.now }
{
    if sign { byte(t, 0) == b'-' } else { false }
}

// What stands after the sign.
pub fn after_sign(sign: bool, t: &[u8]) -> &[u8]
    ensures { result.now ≡ unsigned sign t.now }
{
    if sign {
        match byte(t, 0) {
            b'+' | b'-' => &t[1..],
            _ => t,
        }
    } else {
        t
    }
}

// Spaces, at most one sign, then digits to the last column.
pub fn read_signed(s: &[u8]) -> Result<Option<i64>, Flaw>
    ensures { result ≡ signed_of s.now }
{
    let i = spaces(s);
    if i == s.len() {
        return Ok(None);
    }
    let t = &s[i..];
    let minus = has_minus(true, t);
    in_sign(minus, only_digits(after_sign(true, t)), b"0123456789+- ", s)
}
