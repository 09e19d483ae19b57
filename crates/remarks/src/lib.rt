// The remarks, 13Z: the technology, the cell, the installation, and a free text.
#![tactic(auto)]

ghost use Rattle.std.specs.Prelude.{◌≡◌, [], ◌∷◌, length};
ghost use Rattle.columns.specs.Sets.{between, among};
ghost use Rattle.columns.specs.Texts.{one_of};
ghost use Rattle.remarks.specs.Remarks.{cell_good, installation_good, remarks_good};

use columns::sets::{Set, is_hex};
use columns::texts::{all_in, equal, is_blank, is_either};

// Place 1, the generation of the technology: 2 to 5.
fn is_generation(c: u8) -> bool
    ensures { result ≡ between "2" "5" c }
{
    match c {
        b'2'..=b'5' => true,
        _ => false,
    }
}

// Places 2-10, the cell: spaces, then upper-case hex digits to the end. So each byte is a hex digit, or a space behind a space.
fn is_cell(s: &[u8]) -> bool
    ensures { result ≡ cell_good s.now }
{
    let mut all = true;
    let mut before = b' ';
    for c in s {
        all = all & (is_hex(*c) | ((*c == b' ') & (before == b' ')));
        before = *c;
    }
    all
}

// Places 11-12, the class of the installation.
fn is_size(s: &[u8]) -> bool
    ensures { result ≡ one_of (" 0" ∷ " 2" ∷ "10" ∷ []) s.now }
{
    if is_either(s, b" 0", b" 2") {
        return true;
    }
    equal(b"10", s)
}

// Place 13: indoor or outdoor, the letters I and O.
fn is_surrounding(c: u8) -> bool
    ensures { result ≡ among "IO" c }
{
    match c {
        b'I' | b'O' => true,
        _ => false,
    }
}

// Places 11-13, the installation: its class and where it stands, or blank.
fn is_installation(s: &[u8]) -> bool
    requires { length s.now ≡ 3 }
    ensures { result ≡ installation_good s.now }
{
    if is_blank(s) {
        return true;
    }
    if !is_size(&s[0..2]) {
        return false;
    }
    is_surrounding(s[2])
}

// 13Z, the remarks: blank, or their four parts. The 37 bytes of free text are asked in two parts of 32 and 16, which lap over.
pub fn is_remarks(s: &[u8]) -> bool
    ensures { result ≡ remarks_good s.now }
{
    if s.len() != 50 {
        return false;
    }
    if is_blank(s) {
        return true;
    }
    if !is_generation(s[0]) {
        return false;
    }
    if !is_cell(&s[1..10]) {
        return false;
    }
    if !is_installation(&s[10..13]) {
        return false;
    }
    all_in(Set::Text, &s[13..45]) & all_in(Set::Text, &s[34..50])
}
