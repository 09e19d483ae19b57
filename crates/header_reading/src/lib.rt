// A header read from its record.
#![tactic(auto)]

ghost use Rattle.std.specs.Prelude.{◌≡◌, length};
ghost use Rattle.header.specs.Codes.{header_value};
ghost use Rattle.header_reading.specs.Promises.{HeaderRead};

use basics::Refusal;
use columns::texts::byte;
use days::dates::day_in;
use empties::empty_header;
use header::Header;
use header_judging::check_header;
use keeping::text;
use numerals::amount_in;
use serials::serial_in;

// How reading ended, and the header: the empty one on a refusal.
#[derive(Clone, Copy)]
pub struct ReadHeader {
    pub outcome: Result<(), Refusal>,
    pub header: Header,
}

// The header that a record says; columns 147 to 166, the fax, say nothing.
fn header_in(rec: &[u8]) -> Header
    requires { length rec.now ≡ 219 }
    ensures { result ≡ header_value rec.now }
{
    let number = amount_in(&rec[0..2]);
    let content = text(&rec[2..82]);
    let letter = byte(&rec[82..83], 0);
    let origin = text(&rec[83..86]);
    let mail = text(&rec[86..126]);
    let telephone = text(&rec[126..146]);
    let person = text(&rec[166..186]);
    let count = amount_in(&rec[186..192]);
    let date = day_in(&rec[192..200]);
    let destination = text(&rec[200..203]);
    let serial = serial_in(&rec[203..209]);
    let version = text(&rec[209..212]);
    let reserve = text(&rec[212..219]);
    Header {
        number,
        content,
        letter,
        origin,
        mail,
        telephone,
        person,
        count,
        date,
        destination,
        serial,
        version,
        reserve,
    }
}

// Reads a header's record; it is refused where it has not 219 bytes, or breaks a rule.
pub fn read_header(rec: &[u8]) -> ReadHeader
    ensures { HeaderRead rec.now result }
{
    let outcome = check_header(rec);
    if outcome.is_ok() {
        return ReadHeader {
            outcome,
            header: header_in(rec),
        };
    }
    ReadHeader {
        outcome,
        header: empty_header(),
    }
}
