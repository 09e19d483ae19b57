// Judging a record by any two tables: one loop over the entries of its fields, and then the rows of higher codes.
#![tactic(auto)]

ghost use Rattle.std.specs.Prelude.{◌≡◌};
ghost use Rattle.basics.specs.Rules.{first_broken};
ghost use Rattle.flaw_parts.specs.Parts.{flaw_with, flawless_all};
ghost use Rattle.walking.specs.Walks.{flaws_by};
ghost use Rattle.walking.specs.Promises.{Walked};

use flaws::Flaw;
use walking::{Found, first_row, flaw_behind, is_flawless};

// The first field that has a flaw, counted from 1, and the flaw.
fn first_flaw(entries: &[[usize; 6]], rows: &[[usize; 7]], rec: &[u8]) -> Found
    ensures { (result.code ≡ first_broken 1 (flawless_all (flaws_by entries.now rec.now rows.now)))
        × (result.flaw ≡ flaw_with (flaws_by entries.now rec.now rows.now) result.code) }
{
    for i in 0..entries.len() {
        let flaw = flaw_behind(entries, rows, rec, i);
        if !is_flawless(flaw) {
            return Found { code: 1 + i, flaw };
        }
    }
    Found {
        code: 0,
        flaw: Flaw::None,
    }
}

// The first broken code of a record by two tables, and its flaw: the fields, and where none is broken the rows of higher codes.
pub fn walk(entries: &[[usize; 6]], rows: &[[usize; 7]], rec: &[u8]) -> Found
    ensures { Walked entries.now rows.now rec.now result }
{
    let found = first_flaw(entries, rows, rec);
    if found.code != 0 {
        return found;
    }
    let from = entries.len();
    let code = first_row(entries, rows, rec, from + 1, 255);
    if code == 0 {
        return found;
    }
    Found {
        code,
        flaw: Flaw::Between,
    }
}
