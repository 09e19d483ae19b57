// Standard input read whole, so that a read that fails is told from the end of the input; and what is made of it printed.
#![tactic(auto)]

ghost use Rattle.std.specs.Prelude.{◌≡◌, ◌+◌, ◌*◌, ◌≤◌, length, MatchResult};
ghost use Rattle.basics.specs.Fields.{record_length};
ghost use Rattle.files.specs.Files.{most_stations};

use files::lengths::MOST_BYTES;
use std::io::Read;

// The bytes of the longest file and one more, so that a longer one is told from it.
const ROOM: usize = MOST_BYTES + 1;

// A read failed, after so many bytes.
#[derive(Clone, Copy, Debug, PartialEq, Eq)]
pub struct NotRead {
    pub bytes: usize,
}

// Reads an input into the lent bytes, up to its end or theirs, and answers how many bytes came.
pub fn read_input<R: Read>(input: &mut R, space: &mut [u8]) -> Result<usize, NotRead>
    ensures { MatchResult result (λ bytes. bytes ≤ length space.old) (λ e. e.bytes ≤ length space.old) }
{
    // A turn goes on by as many bytes as came, so that no index is counted; a range is no plainer.
    let mut at = 0;
    while at < space.len() {
        let n = match input.read(&mut space[at..]) {
            Ok(n) => n,
            Err(_) => return Err(NotRead { bytes: at }),
        };
        if n == 0 {
            return Ok(at);
        }
        at += n;
    }
    Ok(at)
}

// Room for so many bytes.
pub fn room<const N: usize>() -> [u8; N]
    ensures { N ≡ length result }
{
    [0; N]
}

// Room for them.
fn file_space() -> [u8; ROOM]
    ensures { record_length * (most_stations + 1) + 1 ≡ length result }
{
    [0; ROOM]
}

// Reads at most that much of a file and has it answered by a function that tells whether it could print all of it; or says what could not be done.
pub fn answer_input<R: Read, F: FnOnce(&[u8]) -> bool>(input: &mut R, print: F)
    requires { F.IsAlwaysCallable print }
{
    let mut file = file_space();
    let n = match read_input(input, &mut file) {
        Ok(n) => n,
        Err(_) => {
            io::write_all(2, b"not read\n");
            return;
        }
    };
    if !print(&file[..n]) {
        io::write_all(2, b"not written\n");
    }
}
