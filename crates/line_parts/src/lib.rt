// What a part adds to what is kept of a line: to counts that stop at a limit, to its last byte, and to the bytes that are held.
#![tactic(auto)]

ghost use Rattle.std.specs.Prelude.{◌≡◌, ◌+◌, min, length};
ghost use Rattle.gathering.specs.Gathering.{last_after, holding};

// The sum of two numbers, or the limit where the sum is above it.
pub fn sum_to(most: usize, a: usize, b: usize) -> usize
    ensures { result ≡ min most (a + b) }
{
    a.saturating_add(b).min(most)
}

// The last byte of a line after a part of it; one without bytes changes nothing.
pub fn last_after(last: u8, part: &[u8]) -> u8
    ensures { result ≡ last_after last part.now }
{
    part.last().copied().unwrap_or(last)
}

// Puts a part behind the bytes that are held, as far as there is room for it, and answers how many are held then.
pub fn hold(buffer: &mut [u8], held: usize, part: &[u8]) -> usize
    ensures value { result ≡ min (length buffer.old) (held + length part.now) }
    ensures buffer_after { buffer.new ≡ holding buffer.old held part.now }
{
    if buffer.len() <= held {
        return buffer.len();
    }
    let end = sum_to(buffer.len(), held, part.len());
    buffer[held..end].copy_from_slice(&part[..end - held]);
    end
}
