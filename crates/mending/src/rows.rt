// The rows that a replacement touches, written anew.
ghost use Rattle.std.specs.Prelude.{◌≡◌, ◌++◌, ◌*◌, ◌≤◌, length, drop};
ghost use Rattle.forms.specs.Counting.{rows, count};
ghost use Rattle.forms.specs.OwnForm.{row_width};
ghost use Rattle.sheet.specs.Promises.{Sized};
ghost use Rattle.mending.specs.Replacing.{touched, mended_row};

use chains::keys::{Scope, site_number};
use sheet_rows::put_rows;
use words::word_of_six;

// Writes the rows that the replacement of record k touches, those from k on that bear its old or its new operator and site, and answers how many.
pub fn mend_rows(file: &[u8], sheet: &mut [u8], n: usize, k: usize, old: &[u8]) -> usize
    requires sized { Sized file.now sheet.old n }
    requires k_le_n { (k ≤ n) × (length old.now ≡ 6) }
    ensures value { result ≡ count (touched file.now old.now k) n }
    ensures sheet_after { sheet.new ≡ rows (mended_row file.now old.now k sheet.old) n ++ drop (row_width * n) sheet.old }
{
    let both = Scope {
        all: false,
        one: word_of_six(old),
        other: site_number(file, k),
    };
    put_rows(file, sheet, n, both, k)
}
