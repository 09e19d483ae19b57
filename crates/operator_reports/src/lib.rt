// What the program prints of a file: a line for each operator, and the total.
#![tactic(auto)]

ghost use Rattle.std.specs.Prelude.{◌≡◌, ◌+◌, ◌*◌, ◌≤◌, length};
ghost use Rattle.forms.specs.Counting.{rows};
ghost use Rattle.printing.specs.Promises.{Appended};
ghost use Rattle.operator_counts.specs.Counts.{operators};
ghost use Rattle.operator_pages.specs.Calls.{page_row};
ghost use Rattle.operator_lines.specs.Lines.{page_line, page_sum, page_lines};
ghost use Rattle.operator_lines.specs.Promises.{OperatorsWritten};

use basics::outcomes::refusal_number;
use files::lengths::stations_in;
use operator_counts::OPERATORS;
use operator_lines::{put_operator, put_operators_total};
use operator_pages::{Page, page_for, row_at};
use printing::lines::put_refused;

// Room for a line of each operator, and for the total.
pub const LONGEST_PAGE: usize = 19785;

// Puts in the lines of the first n rows of a page, and answers where they end.
fn put_operators(out: &mut [u8], page: Page, n: usize) -> usize
    requires { (n ≤ operators) × (197 * n ≤ length out.old) }
    ensures appended { Appended out.old 0 (rows (page_line page) n) out.new result }
    ensures upper_bound { result ≤ 197 * n }
{
    let mut end = 0;
    for i in 0..n {
        end = put_operator(out, end, row_at(page, i));
    }
    end
}

// How many stations the first n rows of a page have together.
fn stations_on(page: Page, n: usize) -> u64
    requires { n ≤ operators }
    ensures { result ≡ page_sum page n }
{
    let mut sum = 0;
    for i in 0..n {
        sum += row_at(page, i).tally.stations as u64;
    }
    sum
}

// Puts in the lines of n rows of a page of a file with so many stations, and the total, and answers where they end.
fn put_lines(out: &mut [u8], page: Page, n: usize, all: usize) -> usize
    requires { (n ≤ operators) × (length out.old ≡ 19785) }
    ensures { Appended out.old 0 (page_lines page n all) out.new result }
{
    let end = put_operators(out, page, n);
    let sum = stations_on(page, n);
    put_operators_total(out, end, n, sum, all)
}

// Writes what is printed of the operators of a file into the lent bytes, and answers its length; the bytes behind it are kept.
pub fn write_operators(file: &[u8], out: &mut [u8; LONGEST_PAGE]) -> usize
    ensures { OperatorsWritten file.now out.old result out.new }
{
    let page = page_for(file, OPERATORS);
    let answer = page.answer;
    let outcome = answer.outcome;
    if outcome.is_err() {
        return put_refused(out, 0, refusal_number(outcome));
    }
    put_lines(out, page, answer.rows, stations_in(file))
}
