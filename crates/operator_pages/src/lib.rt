// The page of a file: a row for each operator that has a station with code 0, ascending by code.
#![tactic(auto)]

ghost use Rattle.std.specs.Prelude.{◌≡◌, [], ◌<◌, length, Ok};
ghost use Rattle.operator_counts.specs.Counts.{operators};
ghost use Rattle.operator_pages.specs.Pages.{operator_row, rows_below, tally_in};
ghost use Rattle.operator_pages.specs.Calls.{paged, page_row};
ghost use Rattle.operator_pages.specs.Promises.{PageFound};

use basics::Refusal;
use files::lengths::{check_file, stations_in};
use operator_counts::{OPERATORS, Tally, tallies};

// A row of a page: the operator's code, two digits, and what is counted of it.
#[derive(Clone, Copy)]
pub struct OperatorRow {
    pub code: [u8; 2],
    pub tally: Tally,
}

// How a page ended, and how many rows it has.
#[derive(Clone, Copy)]
pub struct PageAnswer {
    pub outcome: Result<(), Refusal>,
    pub rows: usize,
}

// A page by value: its answer, and its rows in front of blank ones.
#[derive(Clone, Copy)]
pub struct Page {
    pub answer: PageAnswer,
    pub rows: [OperatorRow; OPERATORS],
}

// The row of operator c.
pub fn operator_row(c: usize, tally: Tally) -> OperatorRow
    requires { c < operators }
    ensures { result ≡ operator_row c tally }
{
    let tens = (48 + c / 10) as u8;
    let ones = (48 + c % 10) as u8;
    OperatorRow {
        code: [tens, ones],
        tally,
    }
}

// How many operators have stations.
pub fn operators_in(counts: [Tally; OPERATORS]) -> usize
    ensures { result ≡ length (rows_below (tally_in counts) operators) }
{
    let mut found = 0;
    for tally in &counts {
        if tally.stations != 0 {
            found += 1;
        }
    }
    found
}

// A page without rows.
fn no_rows(outcome: Result<(), Refusal>) -> Page
    ensures { result ≡ paged outcome [] }
{
    let none = Tally {
        stations: 0,
        transmitting: 0,
        lowest: None,
        highest: None,
    };
    let blank = OperatorRow {
        code: [32, 32],
        tally: none,
    };
    Page {
        answer: PageAnswer { outcome, rows: 0 },
        rows: [blank; OPERATORS],
    }
}

// The rows of the operators that have stations, moved to the front.
fn packed(counts: [Tally; OPERATORS]) -> Page
    ensures { result ≡ paged (Ok tt) (rows_below (tally_in counts) operators) }
{
    let mut page = no_rows(Ok(()));
    let mut n = 0;
    for c in 0..OPERATORS {
        let tally = counts[c];
        if tally.stations != 0 {
            page.rows[n] = operator_row(c, tally);
            n += 1;
        }
    }
    page.answer.rows = n;
    page
}

// The page of a file, where there is room for so many rows: all of them, or a refusal and none.
pub fn page_for(file: &[u8], room: usize) -> Page
    ensures { PageFound file.now room result }
{
    let outcome = check_file(file);
    if outcome.is_err() {
        return no_rows(outcome);
    }
    let page = packed(tallies(file, stations_in(file)));
    let answer = page.answer;
    if room < answer.rows {
        return no_rows(Err(Refusal::TooFewRows));
    }
    page
}

// Row number i of a page, from 0.
pub fn row_at(page: Page, i: usize) -> OperatorRow
    requires { i < operators }
    ensures { result ≡ page_row page i }
{
    page.rows[i]
}
