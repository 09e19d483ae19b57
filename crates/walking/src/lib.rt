// What any two tables say of a record: an entry of one field, by itself and with the rows of its code; a loop over the rows that bind fields together.
#![tactic(auto)]

pub mod parts;

ghost use Rattle.std.specs.Prelude.{◌≡◌, [], ◌<◌, length, get_or};
ghost use Rattle.flaws.specs.Flaws.{flawless};
ghost use Rattle.walking.specs.Walks.{field_behind, stands_by, kept_by, first_row, flaw_behind};

use crate::parts::piece;
use entries::entry_flaw;
use facts::is_fact;
use flaws::Flaw;
use number_flaws::range_flaw;

// What a walk found: the first broken code, 0 where none is, and its flaw.
#[derive(Clone, Copy)]
pub struct Found {
    pub code: usize,
    pub flaw: Flaw,
}

// Field i of a record, counted from 0.
fn field_behind<'a>(entries: &[[usize; 6]], rec: &'a [u8], i: usize) -> &'a [u8]
    requires { i < length entries.now }
    ensures { result.now ≡ field_behind entries.now rec.now i }
{
    let first = entries[i][0];
    let n = entries[i][1];
    piece(rec, first, n)
}

// Whether a fact of field number k stands, or does not, as it is wanted.
fn stands(entries: &[[usize; 6]], rec: &[u8], fact: usize, k: usize, want: usize) -> bool
    ensures { result ≡ stands_by entries.now rec.now fact k want }
{
    if k == 0 {
        return false;
    }
    if entries.len() < k {
        return false;
    }
    let told = is_fact(fact, field_behind(entries, rec, k - 1));
    if want == 1 { told } else { !told }
}

// Whether row j is kept: its code is not asked for, or its two facts do not stand together.
fn is_kept(
    entries: &[[usize; 6]],
    rows: &[[usize; 7]],
    rec: &[u8],
    low: usize,
    high: usize,
    j: usize,
) -> bool
    requires { j < length rows.now }
    ensures { result ≡ kept_by entries.now rec.now low high (get_or rows.now j []) }
{
    let code = rows[j][0];
    let fact = rows[j][1];
    let field = rows[j][2];
    let want = rows[j][3];
    let other = rows[j][4];
    let second = rows[j][5];
    let wish = rows[j][6];
    if code < low {
        return true;
    }
    if high < code {
        return true;
    }
    if !stands(entries, rec, fact, field, want) {
        return true;
    }
    !stands(entries, rec, other, second, wish)
}

// The code of the first row that is broken, of those from low to high; 0 where none is.
pub fn first_row(
    entries: &[[usize; 6]],
    rows: &[[usize; 7]],
    rec: &[u8],
    low: usize,
    high: usize,
) -> usize
    ensures { result ≡ first_row entries.now rec.now low high rows.now }
{
    for (j, row) in rows.iter().enumerate() {
        if !is_kept(entries, rows, rec, low, high, j) {
            return row[0];
        }
    }
    0
}

// Whether nothing is wrong.
pub fn is_flawless(flaw: Flaw) -> bool
    ensures { result ≡ flawless flaw }
{
    match flaw {
        Flaw::None => true,
        Flaw::Byte => false,
        Flaw::Range => false,
        Flaw::Shape => false,
        Flaw::Between => false,
    }
}

// The flaw of field i, counted from 0; a unit that is at odds with its frequency, by a row of its code, is outside its range.
pub fn flaw_behind(entries: &[[usize; 6]], rows: &[[usize; 7]], rec: &[u8], i: usize) -> Flaw
    requires { i < length entries.now }
    ensures { result ≡ flaw_behind entries.now rec.now rows.now i }
{
    let w = entries[i][1];
    let kind = entries[i][2];
    let low = entries[i][3];
    let high = entries[i][4];
    let allowed = entries[i][5];
    let said = entry_flaw(kind, w, low, high, allowed, field_behind(entries, rec, i));
    if kind != 6 {
        return said;
    }
    if !is_flawless(said) {
        return said;
    }
    let k = i + 1;
    range_flaw(first_row(entries, rows, rec, k, k) == 0)
}
