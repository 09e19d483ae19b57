// Words: eight bytes as one number, and texts compared by them.
#![tactic(auto)]

ghost use Rattle.std.specs.Prelude.{◌≡◌, ◌+◌, ◌≤◌, ◌<◌, length, get_or};
ghost use Rattle.columns.specs.Texts.{same};
ghost use Rattle.words.specs.Words.{word_of, word_at};

// The byte at a place, as a number of 64 bits.
pub fn wide_byte(s: &[u8], at: usize) -> u64
    requires { at < length s.now }
    ensures value { result ≡ get_or s.now at 0 }
    ensures upper_bound { result < 256 }
{
    u64::from(s[at])
}

// Eight bytes from a place on as one number, low byte first; compiled, it is one load.
pub fn word(s: &[u8], at: usize) -> u64
    requires { at + 8 ≤ length s.now }
    ensures { result ≡ word_at s.now at }
{
    wide_byte(s, at)
        + 256 * wide_byte(s, at + 1)
        + 65536 * wide_byte(s, at + 2)
        + 16777216 * wide_byte(s, at + 3)
        + 4294967296 * wide_byte(s, at + 4)
        + 1099511627776 * wide_byte(s, at + 5)
        + 281474976710656 * wide_byte(s, at + 6)
        + 72057594037927936 * wide_byte(s, at + 7)
}

// Six bytes as one number.
pub fn word_of_six(s: &[u8]) -> u64
    requires { length s.now ≡ 6 }
    ensures { result ≡ word_of s.now }
{
    wide_byte(s, 0)
        + 256 * wide_byte(s, 1)
        + 65536 * wide_byte(s, 2)
        + 16777216 * wide_byte(s, 3)
        + 4294967296 * wide_byte(s, 4)
        + 1099511627776 * wide_byte(s, 5)
}

// Whether two texts of one length, 8 to 16 bytes, are equal: by their last eight bytes, which nearly always tell, and their first eight.
pub fn equal_words(a: &[u8], b: &[u8]) -> bool
    requires a_len { length a.now ≡ length b.now }
    requires in_bounds { (8 ≤ length a.now) × (length a.now ≤ 16) }
    ensures { result ≡ same a.now b.now }
{
    let last = a.len() - 8;
    if word(a, last) != word(b, last) {
        return false;
    }
    word(a, 0) == word(b, 0)
}
