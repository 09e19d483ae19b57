// A typed header written into a lent record, each field straight into its own columns.
#![tactic(auto)]

ghost use Rattle.std.specs.Prelude.{◌≡◌, length};
ghost use Rattle.header.specs.Spelling.{spell_header};
ghost use Rattle.header.specs.Codes.{typed_header_code};
ghost use Rattle.header_writing.specs.Promises.{HeaderWritten};

use crate::groups::{put_end, put_file};
use basics::Refusal;
use header::Header;
use header::typed::typed_header_code;
use sender_writing::{put_sender, put_sending};

mod groups;

// Writes a header that breaks no rule.
pub fn put_header(h: Header, s: &mut [u8])
    requires { (length s.old ≡ 219) × (typed_header_code h ≡ 0) }
    ensures { s.new ≡ spell_header h }
{
    put_file(h, &mut s[0..86]);
    put_sender(h, &mut s[86..186]);
    put_sending(h, &mut s[186..203]);
    put_end(h, &mut s[203..219]);
}

// Writes a header into a lent buffer; it is refused where that has not 219 bytes, or the header breaks a rule, and then nothing is written.
pub fn write_header(h: Header, buffer: &mut [u8]) -> Result<(), Refusal>
    ensures { HeaderWritten h buffer.old result buffer.new }
{
    if buffer.len() != 219 {
        return Err(Refusal::BufferLength);
    }
    let code = typed_header_code(h);
    if code != 0 {
        return Err(Refusal::RuleBroken(code));
    }
    put_header(h, buffer);
    Ok(())
}
