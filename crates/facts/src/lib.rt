// What a row of the second table asks of one field.
#![tactic(auto)]

ghost use Rattle.std.specs.Prelude.{◌≡◌};
ghost use Rattle.facts.specs.Facts.{fact_of};

use between::is_repeater_name;
use columns::texts::{byte, equal, is_blank};
use numerals::amount_in;

// Whether a fact stands of a field, by its number: filled, begins with M, is FL, is 0, is 000ND00, ends in _R.
pub fn is_fact(fact: usize, s: &[u8]) -> bool
    ensures { result ≡ fact_of fact s.now }
{
    match fact {
        0 => !is_blank(s),
        1 => byte(s, 0) == b'M',
        2 => equal(b"FL", s),
        3 => amount_in(s) == 0,
        4 => equal(b"000ND00", s),
        5 => is_repeater_name(s),
        _ => false,
    }
}
