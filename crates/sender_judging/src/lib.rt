// Codes 1 to 7 of a header's record, read in place: what the file is, and who sent it.
#![tactic(auto)]

ghost use Rattle.std.specs.Prelude.{◌≡◌, length, take};
ghost use Rattle.basics.specs.Rules.{first_broken};
ghost use Rattle.header.specs.Places.{header_fields};
ghost use Rattle.header.specs.Rules.{header_rules};

use basics::rules::first_broken;
use columns::sets::Set;
use columns::texts::{equal, is_left_text};
use distances::is_whole_filled;

// The first broken code of 1 to 7, what the file is and who sent it; 0 means none.
pub fn sender_code(rec: &[u8]) -> u8
    requires { length rec.now ≡ 219 }
    ensures { result ≡ first_broken 1 (take 7 (header_rules (header_fields rec.now))) }
{
    let rules = [
        is_whole_filled(&rec[0..2]),
        is_left_text(&rec[2..82], 80, Set::Text),
        equal(b"O", &rec[82..83]),
        equal(b"AUT", &rec[83..86]),
        is_left_text(&rec[86..126], 40, Set::Mail),
        is_left_text(&rec[126..146], 20, Set::Text),
        is_left_text(&rec[146..166], 20, Set::Text),
    ];
    first_broken(&rules, 1)
}
