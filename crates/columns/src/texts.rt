// Tests on texts: blank, equal, of a set, left-justified. And what needs no reading is written: spaces, and text.
ghost use Rattle.std.specs.Prelude.{◌≡◌, cond, ◌||◌, [], ◌∷◌, ◌≤◌, length, get_or, take, drop, replicate};
ghost use Rattle.columns.specs.Sets.{set_of};
ghost use Rattle.columns.specs.Texts.{skip, blank, trimmed, every, each, same, sized, text_good};
ghost use Rattle.columns.specs.Frames.{frames};

use crate::sets::{Set, has, is_between};

// The byte at i, 0 past the end.
pub fn byte(s: &[u8], i: usize) -> u8
    ensures { result ≡ get_or s.now i 0 }
{
    if i < s.len() { s[i] } else { 0 }
}

// How many spaces stand first.
pub fn spaces(s: &[u8]) -> usize
    ensures { (result ≤ length s.now) × (skip s.now ≡ drop result s.now) }
{
    s.iter().take_while(|c| **c == b' ').count()
}

// All spaces, asked one after the other: for what is mostly told by its first bytes.
pub fn is_blank_stepwise(s: &[u8]) -> bool
    ensures { result ≡ blank s.now }
{
    spaces(s) == s.len()
}

// All spaces, asked of all bytes at once.
pub fn is_blank(s: &[u8]) -> bool
    ensures { result ≡ blank s.now }
{
    let mut all = true;
    for c in s {
        all = all & (*c == b' ');
    }
    all
}

// Every byte is of the set; all are asked at once, so there is no way out before the end.
pub fn all_in(set: Set, s: &[u8]) -> bool
    ensures { result ≡ every (set_of set) s.now }
{
    let mut all = true;
    for c in s {
        all = all & has(set, *c);
    }
    all
}

// Each byte is from that of low up to that of high, place by place; all are asked at once.
pub fn is_framed(s: &[u8], low: &[u8], high: &[u8]) -> bool
    requires { (length low.now ≡ length s.now) × (length high.now ≡ length s.now) }
    ensures { result ≡ each (frames low.now high.now) s.now }
{
    let mut all = true;
    for (i, c) in s.iter().enumerate() {
        all = all & is_between(low[i], high[i], *c);
    }
    all
}

// The two texts are equal. References of one list mostly begin alike, so that the last bytes are looked at first.
pub fn equal(a: &[u8], b: &[u8]) -> bool
    ensures { result ≡ same a.now b.now }
{
    if a.len() != b.len() {
        return false;
    }
    for i in (0..a.len()).rev() {
        if a[i] != b[i] {
            return false;
        }
    }
    true
}

// One of two texts.
pub fn is_either(s: &[u8], a: &[u8], b: &[u8]) -> bool
    ensures { result ≡ (same a.now s.now || same b.now s.now) }
{
    if equal(a, s) {
        return true;
    }
    equal(b, s)
}

// Text of w bytes of a set, left-justified.
pub fn is_left_text(s: &[u8], w: usize, set: Set) -> bool
    ensures { result ≡ text_good w (set_of set) s.now }
{
    if s.len() != w {
        return false;
    }
    if !all_in(set, s) {
        return false;
    }
    if byte(s, 0) != b' ' {
        return true;
    }
    is_blank(s)
}

// Spaces in every column.
pub fn write_blank(s: &mut [u8])
    ensures { s.new ≡ replicate (length s.old) 32 }
{
    s.fill(b' ');
}

// Text in columns of its own width; in others nothing is written.
pub fn write_text(s: &mut [u8], t: &[u8]) -> bool
    ensures value { result ≡ sized (length t.now) s.old }
    ensures s_after { s.new ≡ cond (sized (length t.now) s.old) t.now s.old }
{
    if s.len() != t.len() {
        return false;
    }
    s.copy_from_slice(t);
    true
}

// One byte in its one column; in others nothing is written.
pub fn write_byte(s: &mut [u8], b: u8) -> bool
    ensures value { result ≡ sized 1 s.old }
    ensures s_after { s.new ≡ cond (sized 1 s.old) (b ∷ []) s.old }
{
    if s.len() != 1 {
        return false;
    }
    s[0] = b;
    true
}

// How many bytes are left of a text with its trailing spaces off.
pub fn trimmed_length(s: &[u8]) -> usize
    ensures { (result ≤ length s.now) × (trimmed s.now ≡ take result s.now) }
{
    for i in (0..s.len()).rev() {
        if s[i] != b' ' {
            return i + 1;
        }
    }
    0
}
