// Codes 8 to 14 of a header's record, read in place: the person, the count, and how the file is filed.
#![tactic(auto)]

ghost use Rattle.std.specs.Prelude.{◌≡◌, length, drop};
ghost use Rattle.basics.specs.Rules.{first_broken};
ghost use Rattle.header.specs.Places.{header_fields};
ghost use Rattle.header.specs.Rules.{header_rules};

use basics::rules::first_broken;
use columns::sets::Set;
use columns::texts::{equal, is_left_text};
use distances::is_whole_filled;
use header_dates::is_dated;
use serials::is_serial;

// The first broken code of 8 to 14, the person, the count and how the file is filed; 0 means none.
pub fn closing_code(rec: &[u8]) -> u8
    requires { length rec.now ≡ 219 }
    ensures { result ≡ first_broken 8 (drop 7 (header_rules (header_fields rec.now))) }
{
    let rules = [
        is_left_text(&rec[166..186], 20, Set::Text),
        is_whole_filled(&rec[186..192]),
        is_dated(&rec[192..200]),
        equal(b"AUT", &rec[200..203]),
        is_serial(&rec[203..209]),
        equal(b"1.0", &rec[209..212]),
        equal(b"       ", &rec[212..219]),
    ];
    first_broken(&rules, 8)
}
