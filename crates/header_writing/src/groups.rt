// The first and the last group of fields of a header's record.
ghost use Rattle.std.specs.Prelude.{◌≡◌, length, take, drop};
ghost use Rattle.basics.specs.Fields.{joined};
ghost use Rattle.header.specs.Spelling.{header_pieces};

use columns::texts::{write_byte, write_text};
use header::Header;
use numeral_writing::put_whole;
use serials::put_serial;

// Fields 1 to 4, columns 1 to 86: what the file is.
pub(crate) fn put_file(h: Header, s: &mut [u8])
    requires { length s.old ≡ 86 }
    ensures { s.new ≡ joined (take 4 (header_pieces h)) }
{
    put_whole(&mut s[0..2], h.number);
    write_text(&mut s[2..82], &h.content);
    write_byte(&mut s[82..83], h.letter);
    write_text(&mut s[83..86], &h.origin);
}

// Fields 12 to 14, columns 204 to 219: the file number, the version and the reserve.
pub(crate) fn put_end(h: Header, s: &mut [u8])
    requires { length s.old ≡ 16 }
    ensures { s.new ≡ joined (drop 11 (header_pieces h)) }
{
    put_serial(&mut s[0..6], h.serial);
    write_text(&mut s[6..9], &h.version);
    write_text(&mut s[9..16], &h.reserve);
}
