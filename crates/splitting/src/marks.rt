// The marks of a line: semicolons and the line feed.
ghost use Rattle.std.specs.Prelude.{◌≡◌, ◌≤◌, ◌<◌, ◌+◌, eqb, length, take, drop};
ghost use Rattle.columns.specs.Texts.{how_many};
ghost use Rattle.semicolons.specs.Lines.{is_mark, before, behind};

// How many bytes of a short text are the given one. They are counted in a byte, so that many bytes of the text are looked at at once.
fn count_few(text: &[u8], mark: u8) -> u8
    requires { length text.now < 256 }
    ensures { (result ≤ length text.now) × (result ≡ how_many (λ c. eqb c mark) text.now) }
{
    let mut n = 0;
    for c in text {
        if *c == mark {
            n += 1;
        }
    }
    n
}

// How many bytes of a line are the given one.
pub fn count(line: &[u8], mark: u8) -> usize
    ensures { result ≡ how_many (λ c. eqb c mark) line.now }
{
    let mut n = 0;
    for part in line.chunks(255) {
        n += usize::from(count_few(part, mark));
    }
    n
}

// A field ends before it.
pub fn is_mark(c: u8) -> bool
    ensures { result ≡ is_mark c }
{
    if c == b';' {
        return true;
    }
    c == 10
}

// How many bytes stand before the first mark of a text; behind it the next field begins.
pub fn field_length(s: &[u8]) -> usize
    ensures { (result ≤ length s.now) × (before s.now ≡ take result s.now) × (behind s.now ≡ drop (result + 1) s.now) }
{
    for (i, c) in s.iter().enumerate() {
        if is_mark(*c) {
            return i;
        }
    }
    s.len()
}
