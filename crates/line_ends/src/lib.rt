// Where a line ends: a text that came in is cut at its line feeds.
#![tactic(auto)]

ghost use Rattle.std.specs.Prelude.{◌≡◌, ◌==◌, position};
ghost use Rattle.gathering.specs.Promises.{LineEnded};

// Where the first line feed of a text stands, if it has one.
fn feed_in(text: &[u8]) -> Option<usize>
    ensures { result ≡ position (λ b. b == 10) text.now }
{
    text.iter().position(|b| *b == 10)
}

// Where the first line of a text ends: behind its line feed, or where the text does.
pub fn line_end(text: &[u8]) -> usize
    ensures { LineEnded text.now result }
{
    let at = feed_in(text).unwrap_or(text.len());
    if at < text.len() {
        return at + 1;
    }
    at
}
