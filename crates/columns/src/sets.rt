// The sets of bytes.
ghost use Rattle.std.specs.Prelude.{◌≡◌, ◌&&◌, leb};
ghost use Rattle.columns.specs.Sets.{is_digit, is_upper, is_hex, is_narrow, is_text, is_name, is_mail, set_of};

// A set of bytes that a column may be of.
#[derive(Clone, Copy)]
pub enum Set {
    Digit,
    Upper,
    Hex,
    Narrow,
    Text,
    Name,
    Mail,
}

// A byte from low up to high. It is asked without a branch, and so are the sets, so that a text can be looked at many bytes at a time.
pub fn is_between(low: u8, high: u8, c: u8) -> bool
    ensures { result ≡ leb low c && leb c high }
{
    (low <= c) & (c <= high)
}

// 0-9.
pub fn is_digit(c: u8) -> bool
    ensures { result ≡ is_digit c }
{
    is_between(b'0', b'9', c)
}

// A-Z.
pub fn is_upper(c: u8) -> bool
    ensures { result ≡ is_upper c }
{
    is_between(b'A', b'Z', c)
}

// 0-9 and A-F.
pub fn is_hex(c: u8) -> bool
    ensures { result ≡ is_hex c }
{
    is_digit(c) | is_between(b'A', b'F', c)
}

// A-Z, 0-9 and the hyphen.
pub fn is_narrow(c: u8) -> bool
    ensures { result ≡ is_narrow c }
{
    is_upper(c) | is_digit(c) | (c == b'-')
}

// A-Z, a-z, 0-9, ( ) * + , - . / = and space.
pub fn is_text(c: u8) -> bool
    ensures { result ≡ is_text c }
{
    is_upper(c) | is_between(b'a', b'z', c) | is_between(b'(', b'9', c) | (c == b'=') | (c == b' ')
}

// The text set and the underscore.
pub fn is_name(c: u8) -> bool
    ensures { result ≡ is_name c }
{
    is_text(c) | (c == b'_')
}

// The text set, @ and underscore.
pub fn is_mail(c: u8) -> bool
    ensures { result ≡ is_mail c }
{
    is_text(c) | ((c == b'@') | (c == b'_'))
}

// Whether a byte is of a set.
pub fn has(set: Set, c: u8) -> bool
    ensures { result ≡ set_of set c }
{
    match set {
        Set::Digit => is_digit(c),
        Set::Upper => is_upper(c),
        Set::Hex => is_hex(c),
        Set::Narrow => is_narrow(c),
        Set::Text => is_text(c),
        Set::Name => is_name(c),
        Set::Mail => is_mail(c),
    }
}
