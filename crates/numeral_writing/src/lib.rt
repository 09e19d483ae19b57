// Whole numbers, with a sign and without, written: their digits, their signs, and whether they have their places.
#![tactic(auto)]

ghost use Rattle.std.specs.Prelude.{◌≡◌, ◌++◌, ◌+◌, ◌/◌, ◌^◌, ◌≤◌, ◌<◌, length, take, drop, nat_abs};
ghost use Rattle.numerals.specs.Numbers.{spell_digits, spell_whole, whole_fits, spell_signed, signed_fits, is_negative};

// Writes the last count decimal digits of v from at on, two at a time, and answers what is left of v.
pub fn put_digits(s: &mut [u8], at: usize, count: usize, v: u64) -> u64
    requires { at + count ≤ length s.old }
    ensures { (result ≡ v / 10 ^ count) × (s.new ≡ take at s.old ++ spell_digits count v (drop (at + count) s.old)) }
{
    let mut rest = v;
    let mut left = count;
    // No for: the digits fall in pairs from the end, and what is left then says whether one stands alone.
    while 1 < left {
        left -= 2;
        let pair = rest % 100;
        s[at + left + 1] = 48 + (pair % 10) as u8;
        s[at + left] = 48 + (pair / 10) as u8;
        rest = rest / 100;
    }
    if left == 0 {
        return rest;
    }
    s[at] = 48 + (rest % 10) as u8;
    rest / 10
}

// Writes the last digits of v, one in each column.
pub fn put_whole(s: &mut [u8], v: u64)
    ensures { s.new ≡ spell_whole (length s.old) v }
{
    let n = s.len();
    put_digits(s, 0, n, v);
}

// Whether v has no more than k digits.
pub fn fits_whole(k: usize, v: u64) -> bool
    ensures { result ≡ whole_fits k v }
{
    let mut rest = v;
    for _ in 0..k {
        if rest == 0 {
            return true;
        }
        rest /= 10;
    }
    rest == 0
}

// Whether v is below zero.
pub fn is_negative(v: i64) -> bool
    ensures { result ≡ is_negative v }
{
    v < 0
}

// v without its sign.
pub fn magnitude(v: i64) -> u64
    ensures { result ≡ nat_abs v }
{
    v.unsigned_abs()
}

// Whether a number and its sign have their places in w columns.
pub fn fits_signed(w: usize, v: i64) -> bool
    ensures { result ≡ signed_fits w v }
{
    if w == 0 {
        return false;
    }
    if is_negative(v) {
        return fits_whole(w - 1, magnitude(v));
    }
    fits_whole(w, magnitude(v))
}

// Writes a number with its sign: minus and digits below zero, else a digit in each column.
pub fn put_signed(s: &mut [u8], v: i64)
    requires { 0 < length s.old }
    ensures { s.new ≡ spell_signed (length s.old) v }
{
    let n = s.len();
    if is_negative(v) {
        put_digits(s, 1, n - 1, magnitude(v));
        s[0] = b'-';
        return;
    }
    put_whole(s, magnitude(v));
}
