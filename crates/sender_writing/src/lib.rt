// A header's sender and sending, columns 87 to 203, each field written straight into its own columns.
#![tactic(auto)]

ghost use Rattle.std.specs.Prelude.{◌≡◌, true, length, take, drop};
ghost use Rattle.days.specs.Dates.{date_fits};
ghost use Rattle.basics.specs.Fields.{joined};
ghost use Rattle.header.specs.Spelling.{header_pieces};

use columns::texts::{write_blank, write_text};
use day_writing::write_day;
use header::Header;
use numeral_writing::put_whole;

// Fields 5 to 8, columns 87 to 186: who sent it, and spaces for the fax.
pub fn put_sender(h: Header, s: &mut [u8])
    requires { length s.old ≡ 100 }
    ensures { s.new ≡ joined (take 4 (drop 4 (header_pieces h))) }
{
    write_text(&mut s[0..40], &h.mail);
    write_text(&mut s[40..60], &h.telephone);
    write_blank(&mut s[60..80]);
    write_text(&mut s[80..100], &h.person);
}

// Fields 9 to 11, columns 187 to 203: the count, the date and where it goes.
pub fn put_sending(h: Header, s: &mut [u8])
    requires { (length s.old ≡ 17) × (date_fits h.date ≡ true) }
    ensures { s.new ≡ joined (take 3 (drop 8 (header_pieces h))) }
{
    put_whole(&mut s[0..6], h.count);
    write_day(&mut s[6..14], h.date);
    write_text(&mut s[14..17], &h.destination);
}
