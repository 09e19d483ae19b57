// The page of a file written into lent rows.
#![tactic(auto)]

ghost use Rattle.operator_pages.specs.Promises.{PagePut};

use operator_pages::{OperatorRow, PageAnswer, page_for, row_at};

// Puts the page of a file into the lent rows: all of its rows, or none. Rows past the last keep what they held.
pub fn put_page(file: &[u8], rows: &mut [OperatorRow]) -> PageAnswer
    ensures { PagePut file.now rows.old result rows.new }
{
    let page = page_for(file, rows.len());
    let answer = page.answer;
    let n = answer.rows;
    for i in 0..n {
        rows[i] = row_at(page, i);
    }
    answer
}
