// Vectors one after the other: a letter for the kind, three digits for the width, a colon, the bytes and a line feed.
#![tactic(auto)]

ghost use Rattle.std.specs.Prelude.{◌<◌, ◌≤◌, length, IfSome};

use numerals::read_whole;

// The width of a vector: its three digits, 0 where they are none.
fn width(s: &[u8]) -> usize
    ensures { result < 1000 }
{
    match read_whole(s) {
        Ok(Some(v)) if v < 1000 => v as usize,
        _ => 0,
    }
}

// Where the bytes of the first vector end, counted from its letter; none where it is cut short. They begin at 5, and one
// byte follows them.
pub fn bytes_end(s: &[u8]) -> Option<usize>
    ensures { IfSome result (λ end. (5 ≤ end) × (end < 1005) × (end < length s.now)) }
{
    if s.len() < 6 {
        return None;
    }
    let end = 5 + width(&s[1..4]);
    if s.len() <= end {
        return None;
    }
    Some(end)
}

// Has each vector answered by its letter and its bytes, and prints how many there were, or that one is cut short.
pub fn answer_vectors<F: Fn(u8, &[u8])>(vectors: &[u8], answer: F)
    requires { F.IsAlwaysCallable answer }
{
    let mut rest = vectors;
    let mut count: u64 = 0;
    while !rest.is_empty() {
        let Some(end) = bytes_end(rest) else {
            io::write_all(1, b"cut short\n");
            return;
        };
        answer(rest[0], &rest[5..end]);
        rest = &rest[end + 1..];
        count += 1;
    }
    io::print_decimal(1, count);
    io::write_all(1, b" vectors\n");
}
