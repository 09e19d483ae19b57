// Decimals over the digits before the point and behind it, and the sign: read and written.
#![tactic(auto)]

ghost use Rattle.std.specs.Prelude.{◌≡◌, ◌++◌, length, take, ◌+◌, ◌-◌, ◌*◌, ◌^◌, ◌≤◌, ◌<◌};
ghost use Rattle.decimals.specs.Decimals.{fraction_of, magnitude_of, spell_magnitude, spell_decimal, decimal_width};

use columns::texts::{byte, is_blank_stepwise};
use numeral_writing::{is_negative, magnitude, put_digits};
use numerals::{Unread, digits};

// v with k zeros behind it.
fn scaled(v: u64, k: usize) -> u64
    requires { (k ≤ 18) × (v < 10 ^ (18 - k)) }
    ensures { result ≡ v * 10 ^ k }
{
    v * 10u64.pow(k as u32)
}

// Behind the point: 1 to b digits and spaces, read onto v.
fn fraction_of(t: &[u8], b: usize, v: u64) -> Result<Option<u64>, Unread>
    requires { (b ≤ 18) × (v < 10 ^ (18 - b)) }
    ensures { result ≡ fraction_of b v t.now }
{
    let f = digits(t, b, v);
    let n = f.count;
    if n == 0 {
        return Err(Unread);
    }
    if !is_blank_stepwise(&t[n..]) {
        return Err(Unread);
    }
    Ok(Some(scaled(f.value, b - n)))
}

// Up to a digits, a point, and what stands behind it.
pub fn magnitude_of(t: &[u8], a: usize, b: usize) -> Result<Option<u64>, Unread>
    requires { a + b ≤ 18 }
    ensures { result ≡ magnitude_of a b t.now }
{
    let w = digits(t, a, 0);
    let p = w.count;
    if byte(t, p) != b'.' {
        return Err(Unread);
    }
    let q = p + 1;
    fraction_of(&t[q..], b, w.value)
}

// Writes digits, a point and digits, from o to the end.
pub fn put_magnitude(s: &mut [u8], o: usize, a: usize, b: usize, v: u64)
    requires { length s.old ≡ o + a + 1 + b }
    ensures { s.new ≡ take o s.old ++ spell_magnitude a b v }
{
    let p = o + a;
    let high = put_digits(s, p + 1, b, v);
    s[p] = b'.';
    put_digits(s, o, a, high);
}

// Writes a decimal in all of its columns.
pub fn put_decimal(s: &mut [u8], a: usize, b: usize, sign: bool, v: i64)
    requires { length s.old ≡ decimal_width a b sign }
    ensures { s.new ≡ spell_decimal a b sign v }
{
    let m = magnitude(v);
    if sign {
        put_magnitude(s, 1, a, b, m);
        if is_negative(v) {
            s[0] = b'-';
        } else {
            s[0] = b' ';
        }
    } else {
        put_magnitude(s, 0, a, b, m);
    }
}
