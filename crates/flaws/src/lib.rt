// What is wrong with a field: which flaw it has, and its number. The definitions and the split of each rule stand in specs/ and proofs/.
#![tactic(auto)]

ghost use Rattle.std.specs.Prelude.{◌≡◌, length};
ghost use Rattle.columns.specs.Sets.{set_of};
ghost use Rattle.columns.specs.Texts.{every};
ghost use Rattle.flaws.specs.Flaws.{flaw_number, letter_of, unread};

use columns::sets::Set;
use columns::texts::all_in;

// What is wrong with a field: nothing; a byte that it admits at no place; a value outside its range; a shape that cannot be read; or it lies between fields.
#[derive(Clone, Copy)]
pub enum Flaw {
    None,
    Byte,
    Range,
    Shape,
    Between,
}

// The number of a flaw.
pub fn flaw_number(flaw: Flaw) -> u8
    ensures { result ≡ flaw_number flaw }
{
    match flaw {
        Flaw::None => 0,
        Flaw::Byte => 1,
        Flaw::Range => 2,
        Flaw::Shape => 3,
        Flaw::Between => 4,
    }
}

// Whether a byte is one of some letters.
fn is_letter_of(letters: &[u8], c: u8) -> bool
    ensures { result ≡ letter_of letters.now c }
{
    letters.contains(&c)
}

// Whether every byte of a text is one of some letters.
pub fn all_letters_of(letters: &[u8], s: &[u8]) -> bool
    ensures { result ≡ every (letter_of letters.now) s.now }
{
    s.iter().all(|c| is_letter_of(letters, *c))
}

// The flaw of a field that cannot be read, by the letters that it admits.
pub fn unread_of(letters: &[u8], s: &[u8]) -> Flaw
    ensures { result ≡ unread (letter_of letters.now) s.now }
{
    if all_letters_of(letters, s) {
        Flaw::Shape
    } else {
        Flaw::Byte
    }
}

// The flaw of a field that cannot be read, by the set that it admits.
pub fn unread_in(set: Set, s: &[u8]) -> Flaw
    ensures { result ≡ unread (set_of set) s.now }
{
    if all_in(set, s) {
        Flaw::Shape
    } else {
        Flaw::Byte
    }
}
