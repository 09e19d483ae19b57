// The code of a typed header: the first rule that its values break, 1 to 14.
ghost use Rattle.std.specs.Prelude.{◌≡◌, take, drop};
ghost use Rattle.basics.specs.Rules.{first_broken};
ghost use Rattle.header.specs.Rules.{typed_header_rules};
ghost use Rattle.header.specs.Promises.{HeaderJudged};

use crate::Header;
use basics::rules::first_broken;
use columns::sets::Set;
use columns::texts::{equal, is_left_text};
use header_dates::fits_date;
use numeral_writing::fits_whole;
use serials::fits_serial;

// The first broken code of 1 to 7, what the file is and who sent it; 0 means none. A typed header has no fax, so 7 holds.
fn typed_sender_code(h: Header) -> u8
    ensures { result ≡ first_broken 1 (take 7 (typed_header_rules h)) }
{
    let rules = [
        fits_whole(2, h.number),
        is_left_text(&h.content, 80, Set::Text),
        h.letter == b'O',
        equal(b"AUT", &h.origin),
        is_left_text(&h.mail, 40, Set::Mail),
        is_left_text(&h.telephone, 20, Set::Text),
        true,
    ];
    first_broken(&rules, 1)
}

// The first broken code of 8 to 14, the person, the count and how the file is filed; 0 means none.
fn typed_closing_code(h: Header) -> u8
    ensures { result ≡ first_broken 8 (drop 7 (typed_header_rules h)) }
{
    let rules = [
        is_left_text(&h.person, 20, Set::Text),
        fits_whole(6, h.count),
        fits_date(h.date),
        equal(b"AUT", &h.destination),
        fits_serial(h.serial),
        equal(b"1.0", &h.version),
        equal(b"       ", &h.reserve),
    ];
    first_broken(&rules, 8)
}

// The first broken code of a typed header, 1 to 14; 0 means none.
pub fn typed_header_code(h: Header) -> u8
    ensures { HeaderJudged h result }
{
    let code = typed_sender_code(h);
    if code != 0 {
        return code;
    }
    typed_closing_code(h)
}
